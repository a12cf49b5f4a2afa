//! Names (Namespaces in XML 1.0, productions 4 and 7).

ghost use Rattle.std.specs.Prelude.{◌≡◌};
ghost use Rattle.std.specs.Str.{chars};
ghost use Rattle.xml_tokenizer.specs.Names.{starts_name, name_at, qname_at};
ghost use Rattle.xml_tokenizer.specs.Steps.{Reads};

use crate::classes::Class;
use crate::runs::{after, next_char, run};
use xml_grammar::QName;
use xmp_values::{Text, is_name_start};

fn starts_name(text: &str) -> bool
    ensures { result ≡ starts_name (chars text.now) }
{
    match next_char(text) {
        Some((c, _)) => is_name_start(c),
        None => false,
    }
}

/// A name without colon.
#[tactic(auto, unfolding(crate::specs::Names::name_at))]
pub fn name_of(text: &str) -> Option<(&str, &str)>
    ensures { Reads (λ x. (x.0.now, chars x.1.now)) result (name_at (chars text.now)) }
{
    if !starts_name(text) {
        return None;
    }
    let (name, rest) = run(Class::NameChar, text);
    Some((name, rest))
}

/// A name, or two that a colon joins.
#[tactic(auto, unfolding(crate::specs::Names::qname_at))]
pub fn qname_of(text: &str) -> Option<(QName<'_>, &str)>
    ensures { Reads (λ x. (x.0, chars x.1.now)) result (qname_at (chars text.now)) }
{
    let (first, rest) = name_of(text)?;
    match after(":", rest) {
        None => {
            let name = QName {
                prefix: None,
                local: Text::raw(first.as_bytes()),
            };
            Some((name, rest))
        }
        Some(rest) => {
            let (second, rest) = name_of(rest)?;
            let name = QName {
                prefix: Some(Text::raw(first.as_bytes())),
                local: Text::raw(second.as_bytes()),
            };
            Some((name, rest))
        }
    }
}
