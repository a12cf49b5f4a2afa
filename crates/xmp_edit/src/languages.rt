//! The items of an array beside a map that leads from a language to its first item, so that `setlang`
//! looks at no other.
ghost use Rattle.std.specs.Prelude.{◌≡◌, None, slice_get, IfOk};
ghost use Rattle.xmp_values.specs.Stops.{Gives, rule_of};
ghost use Rattle.xmp_tree.specs.Places.{lang_of, tag_place};
ghost use Rattle.xmp_tree.specs.declared.nested.Shape.{Simple};
ghost use Rattle.xmp_edit.specs.Actions.{set_leaf, said};
ghost use Rattle.xmp_edit.specs.Edits.{item_at};
ghost use Rattle.xmp_edit.specs.Languages.{lower, HasLanguages, Knows, LanguagesMore, AddsLanguage, spoken_items};

use crate::changing::{is_default, item_said, one_more_said};
use std::alloc::Global;
use std::collections::BTreeMap;
use xmp_tree::{Items, Value, lang_of};
use xmp_values::{Memory, RuleStop, Text};

/// The place of the first item of each language, which is written in lower case.
pub type Places = BTreeMap<Vec<u8>, usize>;

/// What is known of the languages of items.
#[derive(Drop)]
pub enum Languages {
    /// Nothing, but how many items `setlang` has looked at since it was known.
    Unknown(usize),
    /// Where each is.
    Known(BTreeMap<Vec<u8>, usize>),
}

/// Items whose languages are known.
#[derive(Drop)]
pub struct Spoken<'p> {
    pub items: Items<'p>,
    pub places: BTreeMap<Vec<u8>, usize>,
}

/// A language as it is looked up.
fn key_of(alloc: Global, tag: &[u8]) -> Result<Vec<u8>, Memory>
    ensures { IfOk result (λ key. key.items ≡ lower tag.now) }
{
    Ok(tag.to_ascii_lowercase(alloc)?)
}

/// The places with one more language, unless it has one.
fn placed(places: Places, key: Vec<u8>, at: usize) -> Result<Places, Memory>
    ensures { IfOk result (λ new. LanguagesMore key at places new) }
{
    if places.contains_key(&key) {
        return Ok(places);
    }
    let mut places = places;
    places.insert(key, at)?;
    Ok(places)
}

/// The places with the language of one more item.
fn listed(alloc: Global, places: Places, item: &Value<'_>, at: usize) -> Result<Places, Memory>
    ensures { IfOk result (λ new. AddsLanguage (lang_of item.now) at places new) }
{
    match lang_of(item) {
        Some(lang) => placed(places, key_of(alloc, lang)?, at),
        None => Ok(places),
    }
}

/// The items, and where each language is.
fn spoken_of<'p>(alloc: Global, items: Items<'p>) -> Result<Spoken<'p>, Memory>
    ensures items { IfOk result (λ s. s.items ≡ items.entry) }
    ensures known { IfOk result (λ s. HasLanguages s.places s.items) }
{
    let mut list = Items::new(alloc);
    let mut places = BTreeMap::new(alloc);
    for item in items.into_vec() {
        places = listed(alloc, places, &item, list.len())?;
        list.push(item)?;
    }
    Ok(Spoken {
        items: list,
        places,
    })
}

/// The items with what is known, or what is found by a look at each.
pub fn known<'p>(
    alloc: Global,
    items: Items<'p>,
    languages: Languages,
) -> Result<Spoken<'p>, Memory>
    requires known { Knows languages items }
    ensures items { IfOk result (λ s. s.items ≡ items.entry) }
    ensures known { IfOk result (λ s. HasLanguages s.places s.items) }
{
    match languages {
        Languages::Known(places) => Ok(Spoken { items, places }),
        Languages::Unknown(_) => spoken_of(alloc, items),
    }
}

/// Items whose one at a place becomes a text. It keeps its language.
fn replaced<'p>(
    alloc: Global,
    text: &Text<'_>,
    spoken: Spoken<'p>,
    at: usize,
) -> Result<Spoken<'p>, RuleStop>
    requires known { HasLanguages spoken.places spoken.items }
    ensures gives { Gives rule_of (spoken_items result) (item_at (set_leaf (Simple text.now)) spoken.entry.items at (slice_get spoken.entry.items at)) }
    ensures known { IfOk result (λ s. HasLanguages s.places s.items) }
{
    let Spoken { items, places } = spoken;
    let items = item_said(alloc, text, items, at)?;
    Ok(Spoken { items, places })
}

/// Items with one more, whose language is new and has this key.
fn one_more<'p>(
    alloc: Global,
    tag: &Text<'_>,
    text: &Text<'_>,
    spoken: Spoken<'p>,
    key: Vec<u8>,
) -> Result<Spoken<'p>, RuleStop>
    requires keyed { key.items ≡ lower tag.now }
    requires known { HasLanguages spoken.places spoken.items }
    ensures gives { Gives rule_of (spoken_items result) (said tag.now text.now spoken.entry.items None) }
    ensures known { IfOk result (λ s. HasLanguages s.places s.items) }
{
    let Spoken { items, places } = spoken;
    let at = items.len();
    let items = one_more_said(alloc, tag, text, items)?;
    if is_default(tag) {
        // It stands in front, so each of the others has moved.
        return Ok(spoken_of(alloc, items)?);
    }
    let places = placed(places, key, at)?;
    Ok(Spoken { items, places })
}

/// Items whose one of a language becomes a text, or with one more.
pub fn said<'p>(
    alloc: Global,
    tag: &Text<'_>,
    text: &Text<'_>,
    spoken: Spoken<'p>,
) -> Result<Spoken<'p>, RuleStop>
    requires known { HasLanguages spoken.places spoken.items }
    ensures gives { Gives rule_of (spoken_items result) (said tag.now text.now spoken.entry.items (tag_place tag.now spoken.entry.items)) }
    ensures known { IfOk result (λ s. HasLanguages s.places s.items) }
{
    let key = key_of(alloc, tag.bytes())?;
    match spoken.places.get(&key).copied() {
        Some(at) => replaced(alloc, text, spoken, at),
        None => one_more(alloc, tag, text, spoken, key),
    }
}
