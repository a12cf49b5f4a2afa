//! The lines that tell which properties `reconcile` would change.
ghost use Rattle.std.specs.Prelude.{◌≡◌, ◌++◌, IfOk, OnOk};
ghost use Rattle.std.specs.Option.{option_copied};
ghost use Rattle.mwg_rules.specs.Stale.{is_changed, line, line_if, stale_line, stale_lines};

use crate::choices::{Choice, Choices};
use crate::forms::is_already;
use crate::properties::{Form, PROPERTIES, Property};
use std::alloc::Global;
use xmp_tree::{Tree, Value, value_named};
use xmp_values::{Bytes, Memory};

/// A line `stale PROPERTY SOURCE` for each property that `reconcile` would change, with the source
/// `exif` or `iptc`.
///
/// # Errors
/// `Memory`.
#[tactic(auto, unfolding(crate::specs::Stale::stale_lines))]
pub fn stale(alloc: Global, t: &Tree<'_>, c: &Choices) -> Result<Bytes, Memory>
    ensures { IfOk result (λ text. text ≡ stale_lines c.now t.now.props) }
{
    let mut text = Vec::new(alloc);
    for property in PROPERTIES {
        let there = value_named(t.props.as_slice(), &property.name());
        push_line(&mut text, property, c.get(property), there)?;
    }
    Ok(Bytes::from_vec(text))
}

/// Puts the line of a property at the end, if a choice would change it.
#[tactic(auto, unfolding(crate::specs::Stale::stale_line))]
fn push_line(
    text: &mut Vec<u8>,
    property: Property,
    choice: Option<&Choice>,
    there: Option<&Value<'_>>,
) -> Result<(), Memory>
    ensures { OnOk result (text.new.items ≡ text.old.items ++ stale_line property (option_copied choice.entry) (option_copied there.entry)) }
{
    let (texts, source) = match choice {
        Some(Choice::Exif(texts)) => (texts, "exif"),
        Some(Choice::Iptc(texts)) => (texts, "iptc"),
        Some(Choice::Xmp) => return Ok(()),
        None => return Ok(()),
    };
    if is_changed(property.form(), texts.as_slice(), there) {
        text.extend_from_slice(b"stale ")?;
        text.extend_from_slice(property.shown_name().as_bytes())?;
        text.extend_from_slice(b" ")?;
        text.extend_from_slice(source.as_bytes())?;
        text.push(b'\n')?;
    }
    Ok(())
}

/// Whether the texts would change what is there.
fn is_changed(form: Form, texts: &[Bytes], there: Option<&Value<'_>>) -> bool
    ensures { result ≡ is_changed form texts.now (option_copied there.entry) }
{
    match there {
        Some(value) => !is_already(form, texts, value),
        None => true,
    }
}
