//! Texts that are borrowed where the document's are, and texts that are joined.
ghost use Rattle.std.specs.Prelude.{◌≡◌, ◌++◌, [], IfOk, IfSome, IfNone};
ghost use Rattle.std.specs.List.{flat_map};
ghost use Rattle.std.specs.Option.{option_copied};
ghost use Rattle.rdf_forms.specs.Parts.{text_at, own_text};

use std::alloc::Global;
use xml_grammar::{Child, Element};
use xmp_values::{Memory, Sequence, Text};

/// One text after another, in a copy.
pub fn joined<'q>(alloc: Global, first: &Text<'_>, second: &Text<'_>) -> Result<Text<'q>, Memory>
    ensures { IfOk result (λ t. t ≡ first.now ++ second.now) }
{
    let mut bytes = Vec::from_slice(alloc, first.bytes())?;
    bytes.extend_from_slice(second.bytes())?;
    Text::own(alloc, Sequence::from_vec(bytes))
}

/// The texts among children, joined in a copy.
fn joined_texts<'q>(alloc: Global, children: &[Child<'_>]) -> Result<Text<'q>, Memory>
    ensures { IfOk result (λ t. t ≡ flat_map text_at children.now) }
{
    let mut bytes = Vec::new(alloc);
    for child in children {
        if let Some(text) = as_text(child) {
            bytes.extend_from_slice(text.bytes())?;
        }
    }
    Text::own(alloc, Sequence::from_vec(bytes))
}

/// The child as a text.
#[tactic(auto, using(rdf_forms::proofs::ChildLaws::children))]
fn as_text<'e, 'p>(child: &'e Child<'p>) -> Option<&'e Text<'p>>
    ensures text { IfSome (option_copied result) (λ t. t ≡ text_at child.now) }
    ensures none { IfNone result (text_at child.now ≡ []) }
{
    match child {
        Child::Text(text) => Some(text),
        Child::Element(_) => None,
    }
}

/// The text of an only child, if it is one.
fn only_text<'e, 'p>(children: &'e [Child<'p>]) -> Option<&'e Text<'p>>
    ensures { IfSome (option_copied result) (λ t. t ≡ flat_map text_at children.now) }
{
    match children {
        [child] => as_text(child),
        _ => None,
    }
}

/// The element's own text. It is copied only where a child element parts it.
pub fn own_text<'p>(alloc: Global, element: &Element<'p>) -> Result<Text<'p>, Memory>
    ensures { IfOk result (λ t. t ≡ own_text element.now) }
{
    let children = element.children.as_slice();
    if children.is_empty() {
        return Ok(Text::raw(b"".as_slice()));
    }
    match only_text(children) {
        Some(text) => text.try_clone(),
        None => joined_texts(alloc, children),
    }
}
