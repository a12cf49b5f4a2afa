//! XML declarations (XML 1.0, productions 23 to 26, 32 and 80).

ghost use Rattle.std.specs.Prelude.{◌≡◌, true};
ghost use Rattle.std.specs.Str.{chars};
ghost use Rattle.xml_tokenizer.specs.Classes as classes;
ghost use Rattle.xml_tokenizer.specs.Declarations.{given_at, quoted_run_at, version_at, encoding_at, standalone_at, answer_at, optional, or_here, declaration_at};
ghost use Rattle.xml_tokenizer.specs.Runs.{is_ascii};
ghost use Rattle.xml_tokenizer.specs.Steps.{Reads};

use crate::classes::Class;
use crate::runs::{after, after_char, past_run, run, starts_with};
use crate::sections::starts_blank;
use crate::values::{past_equals, quote_of};
use xmp_values::Text;

/// White space, a word, `=` and a quote.
#[tactic(auto, unfolding(crate::specs::Declarations::given_at))]
fn given_of<'p>(word: &str, text: &'p str) -> Option<(char, &'p str)>
    requires { is_ascii word.now ≡ true }
    ensures { Reads (λ x. (x.0, chars x.1.now)) result (given_at word.now (chars text.now)) }
{
    if !starts_blank(text) {
        return None;
    }
    let rest = after(word, past_run(Class::Blank, text))?;
    let rest = past_equals(rest)?;
    quote_of(rest)
}

/// A run, not empty, and the quote after it.
#[tactic(auto, unfolding(crate::specs::Declarations::quoted_run_at))]
fn quoted_run(class: Class, quote: char, text: &str) -> Option<(&str, &str)>
    ensures { Reads (λ x. (x.0.now, chars x.1.now)) result (quoted_run_at (classes.has class) quote (chars text.now)) }
{
    if !starts_with(class, text) {
        return None;
    }
    let (inside, rest) = run(class, text);
    let rest = after_char(quote, rest)?;
    Some((inside, rest))
}

#[tactic(auto, unfolding(crate::specs::Declarations::version_at))]
fn past_version(text: &str) -> Option<&str>
    ensures { Reads (λ x. chars x.now) result (version_at (chars text.now)) }
{
    let (quote, rest) = given_of("version", text)?;
    let rest = after("1.", rest)?;
    let (_, rest) = quoted_run(Class::Decimal, quote, rest)?;
    Some(rest)
}

#[tactic(auto, unfolding(crate::specs::Declarations::encoding_at))]
fn encoding_of(text: &str) -> Option<(&str, &str)>
    ensures { Reads (λ x. (x.0.now, chars x.1.now)) result (encoding_at (chars text.now)) }
{
    let (quote, rest) = given_of("encoding", text)?;
    quoted_run(Class::NameChar, quote, rest)
}

/// `yes` or `no`.
fn past_answer(text: &str) -> Option<&str>
    ensures { Reads (λ x. chars x.now) result (answer_at (chars text.now)) }
{
    if let Some(rest) = after("yes", text) {
        return Some(rest);
    }
    after("no", text)
}

#[tactic(auto, unfolding(crate::specs::Declarations::standalone_at))]
fn past_standalone(text: &str) -> Option<&str>
    ensures { Reads (λ x. chars x.now) result (standalone_at (chars text.now)) }
{
    let (quote, rest) = given_of("standalone", text)?;
    let rest = past_answer(rest)?;
    after_char(quote, rest)
}

/// The encoding that is named, if one is, and the text after it.
fn optional_encoding(text: &str) -> (Option<Text<'_>>, &str)
    ensures { (result.0, chars result.1.now) ≡ optional (chars text.now) (encoding_at (chars text.now)) }
{
    match encoding_of(text) {
        Some((name, rest)) => (Some(Text::raw(name.as_bytes())), rest),
        None => (None, text),
    }
}

fn optional_standalone(text: &str) -> &str
    ensures { chars result.now ≡ or_here (chars text.now) (standalone_at (chars text.now)) }
{
    match past_standalone(text) {
        Some(rest) => rest,
        None => text,
    }
}

/// The encoding that a declaration names, after its `<?xml`.
#[tactic(auto, unfolding(crate::specs::Declarations::declaration_at))]
pub fn declaration_of(text: &str) -> Option<(Option<Text<'_>>, &str)>
    ensures { Reads (λ x. (x.0, chars x.1.now)) result (declaration_at (chars text.now)) }
{
    let rest = past_version(text)?;
    let (encoding, rest) = optional_encoding(rest);
    let rest = optional_standalone(rest);
    let rest = after("?>", past_run(Class::Blank, rest))?;
    Some((encoding, rest))
}
