//! The token at the front of a text.

ghost use Rattle.std.specs.Prelude.{◌≡◌, ◌≢◌, [], IfOk, IfErr, encode_utf8_all};
ghost use Rattle.std.specs.Str.{chars};
ghost use Rattle.xmp_values.specs.Stops.{Stops, rule_of};
ghost use Rattle.xmp_values.specs.declared.rules.Rule.TheVariants.{Unfinished};
ghost use Rattle.xml_tokenizer.specs.Rows.{StandsRow, pieces_of, IsSpelled};
ghost use Rattle.xml_tokenizer.specs.Faults.{markup_rule, rule_at};
ghost use Rattle.xml_tokenizer.specs.Stands.{IsRuleIn, IsAfter};
ghost use Rattle.xml_tokenizer.specs.Tokens.{is_start, is_inside, question_at, section_at, markup_at, plain_front, plain_back, run_at, token_at};
ghost use Rattle.xml_tokenizer.specs.Steps.{Gives, Reads};

use crate::declarations::declaration_of;
use crate::references::reference_of;
use crate::runs::{after, begins, next_char};
use crate::searches::{lacks_bracket, plain_text, up_to};
use crate::sections::{cdata_of, past_comment, past_instruction};
use crate::stops::Miss;
use crate::tags::{end_of, start_of};
use crate::values::after_feed;
use std::alloc::Global;
use xml_grammar::{Mode, Token};
use xmp_values::{Rule, RuleStop, Text};

fn is_start(mode: Mode) -> bool
    ensures { result ≡ is_start mode }
{
    matches!(mode, Mode::Start)
}

fn is_inside(mode: Mode) -> bool
    ensures { result ≡ is_inside mode }
{
    matches!(mode, Mode::Inside)
}

/// After `<?`.
#[tactic(auto, unfolding(crate::specs::Tokens::question_at))]
fn question_of(start: bool, text: &str) -> Option<(Token<'_>, &str)>
    ensures { Reads (λ x. (x.0, chars x.1.now)) result (question_at start (chars text.now)) }
{
    if start {
        if let Some(rest) = after("xml", text) {
            if let Some((encoding, rest)) = declaration_of(rest) {
                return Some((Token::Declaration(encoding), rest));
            }
        }
    }
    let rest = past_instruction(text)?;
    Some((Token::Instruction, rest))
}

/// After `<!`.
fn section_of(alloc: Global, text: &str) -> Result<(Token<'_>, &str), Miss>
    ensures { Gives (λ x. (x.0, chars x.1.now)) result (section_at (chars text.now)) }
{
    if let Some(rest) = after("--", text) {
        let rest = past_comment(rest).ok_or(Miss::Nothing)?;
        return Ok((Token::Comment, rest));
    }
    let rest = after("[CDATA[", text).ok_or(Miss::Nothing)?;
    let (data, rest) = cdata_of(alloc, rest)?;
    Ok((Token::Cdata(data), rest))
}

/// After `<`.
#[tactic(auto, unfolding(crate::specs::Tokens::markup_at))]
fn markup_of(alloc: Global, start: bool, text: &str) -> Result<(Token<'_>, &str), Miss>
    ensures { Gives (λ x. (x.0, chars x.1.now)) result (markup_at start (chars text.now)) }
{
    match next_char(text) {
        Some(('/', rest)) => {
            let (name, rest) = end_of(rest).ok_or(Miss::Nothing)?;
            Ok((Token::End(name), rest))
        }
        Some(('?', rest)) => question_of(start, rest).ok_or(Miss::Nothing),
        Some(('!', rest)) => section_of(alloc, rest),
        Some(_) => {
            let (tag, rest) = start_of(alloc, text)?;
            Ok((Token::Start(tag), rest))
        }
        None => Err(Miss::Nothing),
    }
}

/// The longest front of characters that stand for themselves, and the text after it.
fn plain_run(inside: bool, text: &str) -> (&str, &str)
    ensures front { result.0.now ≡ encode_utf8_all (plain_front inside (chars text.now)) }
    ensures rest { chars result.1.now ≡ plain_back inside (chars text.now) }
{
    let (plain, rest) = plain_text(text);
    if !inside {
        return (plain, rest);
    }
    if lacks_bracket(plain) {
        return (plain, rest);
    }
    match up_to("]]>", plain) {
        Some((front, _)) => text.split_at(front.len()),
        None => (plain, rest),
    }
}

#[tactic(auto, unfolding(crate::specs::Tokens::run_at))]
fn run_of(inside: bool, text: &str) -> Option<(Token<'_>, &str)>
    ensures { Reads (λ x. (x.0, chars x.1.now)) result (run_at inside (chars text.now)) }
{
    let (plain, rest) = plain_run(inside, text);
    if plain.is_empty() {
        return None;
    }
    Some((Token::Run(Text::raw(plain.as_bytes())), rest))
}

#[tactic(auto, unfolding(crate::specs::Tokens::token_at))]
fn read(alloc: Global, mode: Mode, text: &str) -> Result<(Token<'_>, &str), Miss>
    ensures { Gives (λ x. (x.0, chars x.1.now)) result (token_at mode (chars text.now)) }
{
    match next_char(text) {
        Some(('<', rest)) => markup_of(alloc, is_start(mode), rest),
        Some(('&', rest)) => {
            let (c, rest) = reference_of(rest).ok_or(Miss::Nothing)?;
            Ok((Token::Reference(c), rest))
        }
        Some(('\r', rest)) => Ok((Token::LineEnd, after_feed(rest))),
        Some(_) => run_of(is_inside(mode), text).ok_or(Miss::Nothing),
        None => Err(Miss::Nothing),
    }
}

/// The rule for a text that begins with `<` and then so.
#[tactic(auto, unfolding(crate::specs::Faults::markup_rule))]
fn markup_rule(text: &str) -> Rule
    ensures { result ≡ markup_rule (chars text.now) }
{
    if begins("!DOCTYPE", text) {
        Rule::Doctype
    } else if begins("!--", text) {
        Rule::BadComment
    } else if begins("?", text) {
        Rule::BadInstruction
    } else if begins("![CDATA[", text) {
        Rule::BadCdata
    } else {
        Rule::BadTag
    }
}

#[tactic(auto, unfolding(crate::specs::Faults::rule_at))]
fn rule_of(text: &str) -> Rule
    ensures { result ≡ rule_at (chars text.now) }
{
    match next_char(text) {
        Some(('<', rest)) => markup_rule(rest),
        Some(('&', _)) => Rule::BadReference,
        Some(_) => Rule::BadChar,
        None => Rule::Unfinished,
    }
}

/// The token at the front of a text, and the text after it.
pub fn token_of(alloc: Global, mode: Mode, text: &str) -> Result<(Token<'_>, &str), RuleStop>
    // Its pieces stand there, one after the other, before what is left.
    ensures stands { IfOk result (λ x. StandsRow mode (pieces_of x.0) (chars text.now) (chars x.1.now)) }
    // It has one piece at least, and takes one byte at least.
    ensures some { IfOk result (λ x. (pieces_of x.0 ≢ []) × IsAfter text.now x.1.now) }
    // The bytes of a run are those of its characters.
    ensures spelled { IfOk result (λ x. IsSpelled x.0) }
    // Without a token no piece stands there, and the rule goes by what the text begins with.
    ensures fault { IfErr result (λ e. Stops rule_of e (IsRuleIn mode (chars text.now))) }
    // At the end of the text the rule is `Unfinished`.
    ensures ended { IfErr result (λ e. Stops rule_of e (λ r. chars text.now ≡ [] → r ≡ Unfinished)) }
{
    match read(alloc, mode, text) {
        Ok((token, rest)) => Ok((token, rest)),
        Err(Miss::Nothing) => Err(RuleStop::Fault(rule_of(text))),
        Err(Miss::Memory) => Err(RuleStop::Memory),
    }
}
