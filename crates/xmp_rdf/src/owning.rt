//! A meaning that owns its texts.
ghost use Rattle.std.specs.Prelude.{◌≡◌, IfOk};

use crate::meanings::{Meaning, Places};
use std::alloc::Global;
use xmp_tree::copy;
use xmp_values::{Digits, Memory};

fn note_again(note: &Option<Digits>) -> Option<Digits>
    ensures { result ≡ note.now }
{
    match note {
        Some(digits) => Some(digits.copy()),
        None => None,
    }
}

/// An equal meaning that owns all its texts.
pub fn own<'q>(alloc: Global, meaning: &Meaning<'_>) -> Result<Meaning<'q>, Memory>
    ensures { IfOk result (λ m. m ≡ meaning.now) }
{
    let tree = copy(alloc, &meaning.tree)?;
    let hints = meaning.hints.try_clone(alloc)?;
    let note = note_again(&meaning.note);
    let places = Places::from_slice(alloc, meaning.places.as_slice())?;
    Ok(Meaning {
        tree,
        hints,
        note,
        places,
    })
}
