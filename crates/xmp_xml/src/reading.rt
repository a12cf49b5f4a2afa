//! A document from left to right.

ghost use Rattle.std.specs.Prelude.{◌≡◌, ◌≢◌, ◌+◌, ◌<◌, ◌^◌, [], ℕ, List, length, IfOk, IfErr, OnOk, IsUtf8};
ghost use Rattle.std.specs.Str.{chars};
ghost use Rattle.xmp_values.specs.declared.hints.Hint.{Hint};
ghost use Rattle.xmp_values.specs.Stops.{Gives, Stops, place_of};
ghost use Rattle.xmp_values.specs.declared.rules.Rule.{Rule};
ghost use Rattle.xml_grammar.specs.declared.elements.Element.{Element};
ghost use Rattle.xml_grammar.specs.Documents.{IsDocument, IsFault};
ghost use Rattle.xmp_xml.specs.Building.{is_nil};
ghost use Rattle.xmp_xml.specs.Document.{mode_by, Advances, Halts, finish};
ghost use Rattle.xmp_xml.specs.Reading.{AnswersDocument, AnswersFault, IsOfBytes, AnswersAlways};

use crate::builder::{Builder, new_builder};
use crate::contents::Doc;
use crate::hints::first_hints;
use crate::steps::token_step;
use std::alloc::Global;
use xml_grammar::{Element, Mode};
use xml_tokenizer::{after_mark, text_of, token_of};
use xmp_values::{Hint, Hints, PlaceStop, Rule, Sequence};

/// Where the next piece stands.
fn mode_of(builder: &Builder<'_>) -> Mode
    ensures { result ≡ mode_by (is_nil builder.now.outer) builder.now.first }
{
    if !builder.outer.is_empty() {
        return Mode::Inside;
    }
    if builder.first {
        Mode::Start
    } else {
        Mode::Outside
    }
}

/// One token further.
fn advance<'p>(
    alloc: Global,
    builder: &mut Builder<'p>,
    at: u64,
    rest: &'p str,
) -> Result<&'p str, PlaceStop>
    requires fits { at + length rest.now < 2 ^ 64 }
    requires some { rest.now ≢ [] }
    ensures further { IfOk result (λ after. Advances builder.old at (chars rest.now) builder.new (chars after.now)) }
    ensures shorter { IfOk result (λ after. length after.now < length rest.now) }
    ensures utf8 { IfOk result (λ after. IsUtf8 after.now) }
    ensures stops { IfErr result (λ e. Stops place_of e (λ f. Halts builder.old at (chars rest.now) f.0 f.1)) }
{
    let mode = mode_of(builder);
    match token_of(alloc, mode, rest) {
        Ok((token, after)) => {
            token_step(alloc, builder, at, token)?;
            Ok(after)
        }
        Err(stop) => Err(stop.at(at)),
    }
}

/// The end of the text.
fn finish<'p>(
    alloc: Global,
    builder: Builder<'p>,
    at: u64,
) -> Result<(Element<'p>, Sequence<Hint>), PlaceStop>
    ensures { Gives place_of result (finish builder.entry at) }
{
    let Builder {
        first: _,
        outer,
        top: _,
        text: _,
        root,
        hints,
        scope: _,
    } = builder;
    if !outer.is_empty() {
        return Err(PlaceStop::Fault(Rule::Unfinished, at));
    }
    match root {
        None => Err(PlaceStop::Fault(Rule::Unfinished, at)),
        Some(root) => {
            let declared = first_hints(alloc, hints)?;
            Ok((root, declared))
        }
    }
}

/// The root and the hints of a text.
fn read_text<'p>(alloc: Global, text: &'p str) -> Result<(Element<'p>, Sequence<Hint>), PlaceStop>
    ensures document { IfOk result (λ x. IsDocument text.now x.0 x.1) }
    ensures stop { IfErr result (λ e. Stops place_of e (λ f. IsFault text.now f.0 f.1)) }
{
    let mut builder = new_builder(alloc);
    let mut rest = after_mark(text);
    for _ in 0..text.len() {
        if rest.is_empty() {
            return finish(alloc, builder, text.len() as u64);
        }
        let at = (text.len() - rest.len()) as u64;
        rest = advance(alloc, &mut builder, at, rest)?;
    }
    finish(alloc, builder, text.len() as u64)
}

/// The root and the hints of a text in bytes.
fn read_bytes<'p>(
    alloc: Global,
    bytes: &'p [u8],
) -> Result<(Element<'p>, Sequence<Hint>), PlaceStop>
    ensures document { IfOk result (λ x. IsDocument bytes.now x.0 x.1) }
    ensures stop { IfErr result (λ e. Stops place_of e (λ f. IsFault bytes.now f.0 f.1)) }
    ensures of_bytes { (r : Rule) (place : ℕ) → IsOfBytes r → IsFault bytes.now r place → AnswersAlways r place result }
{
    match text_of(bytes) {
        Ok(text) => read_text(alloc, text),
        Err((rule, place)) => Err(PlaceStop::Fault(rule, place)),
    }
}

/// The document of a text, or its first fault.
pub fn read<'p>(alloc: Global, text: &'p [u8]) -> Result<Doc<'p>, PlaceStop>
    // A document is the text's.
    ensures document { IfOk result (λ d. IsDocument text.now d.root d.declared) }
    // A fault is the text's first one.
    ensures stop { IfErr result (λ e. Stops place_of e (λ f. IsFault text.now f.0 f.1)) }
    // A text that has a document is read, unless memory runs out.
    ensures each_document { (root : Element) (declared : List Hint) → IsDocument text.now root declared → AnswersDocument root declared result }
    // A fault that a text has is answered, unless memory runs out.
    ensures each_fault { (r : Rule) (place : ℕ) → IsFault text.now r place → AnswersFault r place result }
    // A text in UTF-16, and bytes that aren't UTF-8, are answered so even where no memory is left.
    ensures of_bytes { (r : Rule) (place : ℕ) → IsOfBytes r → IsFault text.now r place → AnswersAlways r place result }
{
    match read_bytes(alloc, text) {
        Ok((root, list)) => {
            let declared = Hints::from_list(list);
            Ok(Doc { root, declared })
        }
        Err(stop) => Err(stop),
    }
}
