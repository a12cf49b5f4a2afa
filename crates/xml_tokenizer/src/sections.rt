//! Comments, CDATA sections and instructions (XML 1.0, productions 15 to 21).

ghost use Rattle.std.specs.Prelude.{◌≡◌, ◌++◌, encode_utf8_all};
ghost use Rattle.std.specs.Str.{chars};
ghost use Rattle.xml_tokenizer.specs.Sections.{starts_blank, comment_at, cdata_at, instruction_at};
ghost use Rattle.xml_tokenizer.specs.Steps.{Gives, Reads};

use crate::lines::lines_of;
use crate::names::name_of;
use crate::runs::{after, next_char};
use crate::searches::up_to;
use crate::stops::Miss;
use std::alloc::Global;
use xmp_values::{Text, is_blank};

/// A comment after its `<!--`.
#[tactic(auto, unfolding(crate::specs::Sections::comment_at, xmp_values::specs::Characters::is_char))]
pub fn past_comment(text: &str) -> Option<&str>
    ensures { Reads (λ x. chars x.now) result (comment_at (chars text.now)) }
{
    let (_, rest) = up_to("--", text)?;
    after(">", rest)
}

/// A CDATA section after its `<![CDATA[`.
#[tactic(auto, unfolding(crate::specs::Sections::cdata_at, xmp_values::specs::Characters::is_char))]
pub fn cdata_of(alloc: Global, text: &str) -> Result<(Text<'_>, &str), Miss>
    ensures { Gives (λ x. (x.0, chars x.1.now)) result (cdata_at (chars text.now)) }
{
    let (inside, rest) = up_to("]]>", text).ok_or(Miss::Nothing)?;
    let lines = lines_of(alloc, inside)?;
    Ok((lines, rest))
}

pub fn starts_blank(text: &str) -> bool
    ensures { result ≡ starts_blank (chars text.now) }
{
    match next_char(text) {
        Some((c, _)) => is_blank(c),
        None => false,
    }
}

/// An instruction after its `<?`.
#[tactic(auto, unfolding(crate::specs::Sections::instruction_at, xmp_values::specs::Characters::is_char))]
pub fn past_instruction(text: &str) -> Option<&str>
    ensures { Reads (λ x. chars x.now) result (instruction_at (chars text.now)) }
{
    let (target, rest) = name_of(text)?;
    if target.eq_ignore_ascii_case("xml") {
        return None;
    }
    if let Some(end) = after("?>", rest) {
        return Some(end);
    }
    if !starts_blank(rest) {
        return None;
    }
    let (_, end) = up_to("?>", rest)?;
    Some(end)
}
