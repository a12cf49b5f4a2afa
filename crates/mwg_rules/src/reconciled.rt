//! The tree with the chosen values put into it.
ghost use Rattle.std.specs.Prelude.{◌≡◌, IfOk};
ghost use Rattle.std.specs.Option.{option_copied};
ghost use Rattle.xmp_values.specs.Characters.{IsCharText};
ghost use Rattle.mwg_rules.specs.Properties.{form_of, name_of};
ghost use Rattle.mwg_rules.specs.Forms.{with_texts};
ghost use Rattle.mwg_rules.specs.Reconciled.{put, reconciled, texts_of, with_property};

use crate::choices::{Choice, Choices};
use crate::forms::with_texts;
use crate::properties::{PROPERTIES, Property};
use std::alloc::Global;
use xmp_tree::{Member, Members, Tree, join, place_of, refill, take_value};
use xmp_values::{Bytes, Memory};

/// A tree with the chosen values put into it. A property that says its value already stays; another
/// is replaced in its place, and a new one goes last. All others stay, in their order.
///
/// # Errors
/// `Memory`; then nothing of the tree is kept.
pub fn reconcile<'p>(t: Tree<'p>, c: &Choices) -> Result<Tree<'p>, Memory>
    ensures { IfOk result (λ made. made ≡ record { about = t.entry.about; props = reconciled c.now t.entry.props }) }
{
    let Tree { about, props } = t;
    let mut props = props;
    for property in PROPERTIES {
        if let Some(texts) = texts_of(c.get(property)) {
            props = put(c.alloc(), property, texts, props)?;
        }
    }
    Ok(Tree { about, props })
}

/// The texts that a choice brings; XMP's own value stays as it is.
pub(crate) fn texts_of(choice: Option<&Choice>) -> Option<&[Bytes]>
    ensures { option_copied result ≡ texts_of (option_copied choice.entry) }
{
    match choice {
        Some(Choice::Exif(texts)) => Some(texts.as_slice()),
        Some(Choice::Iptc(texts)) => Some(texts.as_slice()),
        Some(Choice::Xmp) => None,
        None => None,
    }
}

/// Properties with the texts put into one of them.
fn put<'p>(
    alloc: Global,
    property: Property,
    texts: &[Bytes],
    props: Members<'p>,
) -> Result<Members<'p>, Memory>
    ensures { IfOk result (λ ms. ms ≡ with_property (name_of property) (with_texts (form_of property) texts.now) props.entry) }
{
    let name = property.name();
    let mut props = props;
    match place_of(props.as_slice(), &name) {
        Some(at) => {
            let there = take_value(alloc, &mut props, at);
            let value = with_texts(alloc, property.form(), texts, there)?;
            Ok(refill(props, at, Some(value)))
        }
        None => {
            let value = with_texts(alloc, property.form(), texts, None)?;
            join(false, &mut props, Member { name, value })?;
            Ok(props)
        }
    }
}
