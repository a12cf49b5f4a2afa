//! Sets of texts in the order in which they are first seen.
ghost use Rattle.std.specs.Prelude.{◌≡◌, [], length, not, IfOk, OnOk, OnErr};
ghost use Rattle.std.specs.List.{list_any};
ghost use Rattle.std.specs.Str.{bytes_eq};
ghost use Rattle.std.specs.Option.{unwrap_or};
ghost use Rattle.xmp_values.specs.Texts.{with_text, place_in, texts_of, text_in, IsPlaced, IsSameMap};

use crate::Memory;
use std::alloc::Global;
use std::collections::BTreeMap;
use std::marker::Model;

/// Texts that differ, in the order in which they are first seen. It borrows their bytes. A look-up
/// costs the logarithm of their number, whatever the texts are.
#[derive(Drop)]
pub struct TextSet<'t> {
    texts: Vec<&'t [u8]>,
    /// The place of each text.
    places: BTreeMap<&'t [u8], usize>,
}

impl<'t> Model for TextSet<'t> {
    ghost use Rattle.std.specs.Prelude.{List, ℕ};
    ghost use Rattle.xmp_values.specs.Texts.{texts_of, HasPlaces};

    ghost Value = { List (List ℕ) };

    ghost view = { λ s. texts_of s.texts.items };

    ghost invariant = { λ s. HasPlaces s.places (texts_of s.texts.items) };
}

/// The place that a map has for a text, which is `next` where it had none.
fn place_for<'t>(
    places: &mut BTreeMap<&'t [u8], usize>,
    text: &'t [u8],
    next: usize,
) -> Result<usize, Memory>
    ensures place { IfOk result (λ place. place ≡ unwrap_or (text_in places.old text.now) next) }
    ensures ok { IfOk result (λ place. IsPlaced places.old places.new text.now place) }
    ensures err { OnErr result (IsSameMap places.old places.new) }
{
    Ok(*places.entry(text)?.or_insert(next))
}

impl<'t> TextSet<'t> {
    /// The empty set, which takes no memory.
    pub fn new(alloc: Global) -> TextSet<'t>
        ensures { result ≡ [] }
    {
        TextSet {
            texts: Vec::new(alloc),
            places: BTreeMap::new(alloc),
        }
    }

    /// Puts a text at the end unless it is there, and tells whether it is new. Where memory runs out, the
    /// set stays as it was.
    pub fn insert(&mut self, text: &'t [u8]) -> Result<bool, Memory>
        ensures is_new { IfOk result (λ is_new. is_new ≡ not (list_any (bytes_eq text.now) self.old)) }
        ensures ok { OnOk result (self.new ≡ with_text self.old text.now) }
        ensures err { OnErr result (self.new ≡ self.old) }
    {
        let next = self.texts.len();
        let place = place_for(&mut self.places, text, next)?;
        if place < next {
            return Ok(false);
        }
        let Ok(()) = self.texts.push(text) else {
            self.places.remove(text);
            return Err(Memory);
        };
        Ok(true)
    }

    /// Whether a text is in the set.
    pub fn contains(&self, text: &[u8]) -> bool
        ensures { result ≡ list_any (bytes_eq text.now) self.now }
    {
        self.places.contains_key(text)
    }

    /// The place of a text, from 0; None exactly where it isn't in the set.
    pub fn place_of(&self, text: &[u8]) -> Option<usize>
        ensures { result ≡ place_in self.now text.now }
    {
        self.places.get(text).copied()
    }

    /// The number of texts.
    pub fn len(&self) -> usize
        ensures { result ≡ length self.now }
    {
        self.texts.len()
    }

    /// The texts.
    pub fn as_slice(&self) -> &[&'t [u8]]
        ensures { texts_of result.now ≡ self.now }
    {
        self.texts.as_slice()
    }
}
