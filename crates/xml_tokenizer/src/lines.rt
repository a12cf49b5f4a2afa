//! Line ends (XML 1.0, section 2.11).

ghost use Rattle.std.specs.Prelude.{◌≡◌, ◌<◌, ◌∷◌, ◌++◌, length, IfOk, IfNone, IfSome, encode_utf8_all};
ghost use Rattle.std.specs.Str.{chars};
ghost use Rattle.std.specs.String.{string_bytes};
ghost use Rattle.xml_grammar.specs.Spelling.{line_ends};

use crate::values::after_feed;
use memchr::memchr;
use std::alloc::Global;
use xmp_values::{Bytes, Memory, Text};

/// The text before its first CR, and the text after the line end that this CR is or begins.
fn next_line(text: &str) -> Option<(&str, &str)>
    ensures none { IfNone result (line_ends (chars text.now) ≡ chars text.now) }
    ensures some { IfSome result (λ x. line_ends (chars text.now) ≡ chars x.0.now ++ 10 ∷ line_ends (chars x.1.now)) }
    ensures shorter { IfSome result (λ x. length (chars x.1.now) < length (chars text.now)) }
{
    let Some(at) = memchr(b'\r', text.as_bytes()) else {
        return None;
    };
    let (line, _) = text.split_at(at);
    let (_, next) = text.split_at(at + 1);
    Some((line, after_feed(next)))
}

fn owned_lines(alloc: Global, text: &str) -> Result<String, Memory>
    ensures { IfOk result (λ s. string_bytes s ≡ encode_utf8_all (line_ends (chars text.now))) }
{
    let mut owned = String::new(alloc);
    let mut rest = text;
    for _ in 0..text.len() {
        let Some((line, next)) = next_line(rest) else {
            owned.push_str(rest)?;
            return Ok(owned);
        };
        owned.push_str(line)?;
        owned.push('\n')?;
        rest = next;
    }
    Ok(owned)
}

/// The text with each line end as LF. It is borrowed where it has no CR.
pub fn lines_of(alloc: Global, text: &str) -> Result<Text<'_>, Memory>
    ensures { IfOk result (λ x. x ≡ encode_utf8_all (line_ends (chars text.now))) }
{
    match next_line(text) {
        None => Ok(Text::raw(text.as_bytes())),
        Some(_) => {
            let owned = owned_lines(alloc, text)?;
            Text::own(alloc, Bytes::from_vec(owned.into_bytes()))
        }
    }
}
