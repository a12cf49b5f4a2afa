//! What each kind of token does.

ghost use Rattle.std.specs.Prelude.{◌≡◌, ◌≤◌, ◌<◌, ◌+◌, ◌^◌, length, is_some, encode_utf8, OnOk};
ghost use Rattle.xmp_values.specs.Stops.{Makes, place_of};
ghost use Rattle.xml_grammar.specs.Pieces.{Declaration};
ghost use Rattle.xml_grammar.specs.Scopes.{same_prefix, same_qname};
ghost use Rattle.xml_grammar.specs.Nesting.{is_foreign};
ghost use Rattle.xmp_xml.specs.Building.{is_nil};
ghost use Rattle.xmp_xml.specs.Document.{run_step};
ghost use Rattle.xmp_xml.specs.Steps.{declaration_step, text_step, end_step, tag_rule, begun, tagged_step, start_step, step_of, FitsAt};

use crate::builder::{Builder, add_text, begin, end, end_if, pass, scope_tag};
use crate::pending::char_text;
use crate::tags::{Tagged, read_tag};
use std::alloc::Global;
use xml_grammar::{QName, Tag, Token};
use xmp_values::{Memory, PlaceStop, Rule, Text, leading_blanks};

/// The greatest depth of an element.
const DEEPEST: usize = 100;

/// Whether another encoding than UTF-8 is named.
fn is_foreign(encoding: &Option<Text<'_>>) -> bool
    ensures { result ≡ is_foreign (Declaration encoding.now) }
{
    match encoding {
        Some(name) => !name.bytes().eq_ignore_ascii_case(b"utf-8".as_slice()),
        None => false,
    }
}

fn declaration_step<'p>(
    builder: &mut Builder<'p>,
    at: u64,
    encoding: &Option<Text<'p>>,
) -> Result<(), PlaceStop>
    ensures { Makes place_of result builder.new (declaration_step builder.old at encoding.now) }
{
    if is_foreign(encoding) {
        return Err(PlaceStop::Fault(Rule::Encoding, at));
    }
    pass(builder);
    Ok(())
}

/// Text that may not stand outside the root.
fn text_step<'p>(
    alloc: Global,
    builder: &mut Builder<'p>,
    at: u64,
    text: Text<'p>,
) -> Result<(), PlaceStop>
    ensures { Makes place_of result builder.new (text_step builder.old at text.entry) }
{
    if builder.outer.is_empty() {
        return Err(PlaceStop::Fault(Rule::OutsideRoot, at));
    }
    Ok(add_text(alloc, builder, text)?)
}

fn reference_step<'p>(
    alloc: Global,
    builder: &mut Builder<'p>,
    at: u64,
    c: char,
) -> Result<(), PlaceStop>
    ensures { Makes place_of result builder.new (text_step builder.old at (encode_utf8 c)) }
{
    let text = char_text(alloc, c)?;
    text_step(alloc, builder, at, text)
}

/// Whether two prefixes are the same.
fn same_prefix(one: &Option<Text<'_>>, other: &Option<Text<'_>>) -> bool
    ensures { result ≡ same_prefix one.now other.now }
{
    match (one, other) {
        (None, None) => true,
        (Some(p), Some(q)) => p.bytes() == q.bytes(),
        _ => false,
    }
}

fn same_qname(one: &QName<'_>, other: &QName<'_>) -> bool
    ensures { result ≡ same_qname one.now other.now }
{
    same_prefix(&one.prefix, &other.prefix) && one.local.bytes() == other.local.bytes()
}

fn end_step<'p>(
    alloc: Global,
    builder: &mut Builder<'p>,
    at: u64,
    name: &QName<'p>,
) -> Result<(), PlaceStop>
    ensures { Makes place_of result builder.new (end_step builder.old at name.now) }
{
    if builder.outer.is_empty() {
        return Err(PlaceStop::Fault(Rule::OutsideRoot, at));
    }
    if !same_qname(&builder.top.spelled, name) {
        return Err(PlaceStop::Fault(Rule::Mismatch, at));
    }
    Ok(end(alloc, builder)?)
}

/// The least rule that a tag breaks.
fn tag_rule(builder: &Builder<'_>, tagged: &Tagged<'_>) -> Option<Rule>
    ensures { result ≡ tag_rule (is_nil builder.now.outer) (is_some builder.now.root) (length builder.now.outer) tagged.now }
{
    if builder.outer.is_empty() && builder.root.is_some() {
        Some(Rule::OutsideRoot)
    } else if tagged.misbound {
        Some(Rule::BadNamespace)
    } else if tagged.unbound {
        Some(Rule::UnboundPrefix)
    } else if tagged.twice {
        Some(Rule::TwiceAttribute)
    } else if builder.outer.len() >= DEEPEST {
        Some(Rule::TooDeep)
    } else {
        None
    }
}

fn begun<'p>(alloc: Global, builder: &mut Builder<'p>, tagged: Tagged<'p>) -> Result<(), Memory>
    ensures { OnOk result (builder.new ≡ begun builder.old tagged.entry) }
{
    let Tagged {
        frame,
        hints,
        misbound: _,
        unbound: _,
        twice: _,
        empty,
    } = tagged;
    begin(alloc, builder, frame, hints)?;
    end_if(alloc, empty, builder)
}

fn tagged_step<'p>(
    alloc: Global,
    builder: &mut Builder<'p>,
    at: u64,
    tagged: Tagged<'p>,
) -> Result<(), PlaceStop>
    ensures { Makes place_of result builder.new (tagged_step builder.old at tagged.entry) }
{
    if let Some(rule) = tag_rule(builder, &tagged) {
        return Err(PlaceStop::Fault(rule, at));
    }
    Ok(begun(alloc, builder, tagged)?)
}

fn start_step<'p>(
    alloc: Global,
    builder: &mut Builder<'p>,
    at: u64,
    tag: Tag<'p>,
) -> Result<(), PlaceStop>
    ensures { Makes place_of result builder.new (start_step builder.old at tag.entry) }
{
    scope_tag(alloc, builder)?;
    let tagged = read_tag(alloc, &mut builder.scope, at, tag)?;
    tagged_step(alloc, builder, at, tagged)
}

/// Characters that stand for themselves.
fn run_step<'p>(
    alloc: Global,
    builder: &mut Builder<'p>,
    at: u64,
    run: Text<'p>,
) -> Result<(), PlaceStop>
    requires { at + length run < 2 ^ 64 }
    ensures { Makes place_of result builder.new (run_step builder.old at run.entry) }
{
    let blank = leading_blanks(run.bytes());
    if builder.outer.is_empty() && blank != run.bytes().len() {
        return Err(PlaceStop::Fault(Rule::OutsideRoot, at + blank as u64));
    }
    Ok(add_text(alloc, builder, run)?)
}

/// One token further.
pub fn token_step<'p>(
    alloc: Global,
    builder: &mut Builder<'p>,
    at: u64,
    token: Token<'p>,
) -> Result<(), PlaceStop>
    requires { FitsAt at token }
    ensures { Makes place_of result builder.new (step_of builder.old at token.entry) }
{
    match token {
        Token::Declaration(encoding) => declaration_step(builder, at, &encoding),
        Token::Instruction | Token::Comment => {
            pass(builder);
            Ok(())
        }
        Token::Cdata(text) => text_step(alloc, builder, at, text),
        Token::Start(tag) => start_step(alloc, builder, at, tag),
        Token::End(name) => end_step(alloc, builder, at, &name),
        Token::Reference(c) => reference_step(alloc, builder, at, c),
        Token::LineEnd => Ok(add_text(alloc, builder, Text::raw(b"\n".as_slice()))?),
        Token::Run(text) => run_step(alloc, builder, at, text),
    }
}
