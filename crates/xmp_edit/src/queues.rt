//! The items of an array in a queue: one at either end is put in or taken out without moving the
//! others, and one elsewhere moves those of the shorter side. Where many texts of languages are set one
//! after the other, a map leads to them.
ghost use Rattle.std.specs.Prelude.{◌≡◌, ◌≤◌, [], ◌∷◌, ◌++◌, length, insert, slice_get, slice_set, IfSome, OnOk};
ghost use Rattle.xmp_values.specs.Stops.{Gives, rule_of};
ghost use Rattle.xmp_tree.specs.Parts.{simple};
ghost use Rattle.xmp_tree.specs.Items.{item_put};
ghost use Rattle.xmp_tree.specs.Places.{tag_place};
ghost use Rattle.xmp_edit.specs.Actions.{said};
ghost use Rattle.xmp_edit.specs.Languages.{Knows};

use crate::changing::said_at;
use crate::languages::{Languages, Spoken, known, said};
use std::alloc::Global;
use std::collections::VecDeque;
use std::marker::Model;
use std::mem;
use xmp_tree::{Items, Members, Shape, Value, tag_place};
use xmp_values::{Memory, RuleStop, Text};

/// How many times as many items as there are `setlang` looks at, before a map is made.
const LOOKS: usize = 16;

/// Items that contracts see as their list.
#[derive(Drop)]
pub struct ItemQueue<'p> {
    items: VecDeque<Value<'p>>,
    /// What is known of them, which each edit but `setlang` forgets.
    languages: Languages,
}

impl<'p> Model for ItemQueue<'p> {
    ghost use Rattle.xmp_edit.specs.Codes.{ItemList, items_code};
    ghost use Rattle.xmp_edit.specs.Languages.{Knows};

    ghost Value = { ItemList };

    ghost coded = { items_code };

    ghost view = { λ q. q.items.items };

    ghost invariant = { λ q. Knows q.languages q.items.items };
}

/// A text that takes no memory, to stand for an item that is away.
fn nothing<'p>(alloc: Global) -> Value<'p>
    ensures { result ≡ simple [] }
{
    Value {
        shape: Shape::Simple(Text::raw(b"".as_slice())),
        quals: Members::new(alloc),
    }
}

impl<'p> ItemQueue<'p> {
    /// The items in a queue, none of which is moved.
    pub fn of(items: Items<'p>) -> ItemQueue<'p>
        ensures { result ≡ items.entry }
    {
        ItemQueue {
            items: VecDeque::from_vec(items.into_vec()),
            languages: Languages::Unknown(0),
        }
    }

    /// The items.
    pub fn into_items(self) -> Items<'p>
        ensures { result ≡ self.entry }
    {
        let ItemQueue {
            items,
            languages: _languages,
        } = self;
        Items::from_vec(items.into_vec())
    }

    /// The number of items.
    pub fn len(&self) -> usize
        ensures { result ≡ length self.now }
    {
        self.items.len()
    }

    /// Puts an item before that at a place of at most the length.
    pub fn insert(&mut self, at: usize, item: Value<'p>) -> Result<(), Memory>
        requires { at ≤ length self.old }
        ensures { OnOk result (self.new ≡ insert self.old at item.entry) }
    {
        self.languages = Languages::Unknown(0);
        self.items.insert(at, item)?;
        Ok(())
    }

    /// Puts an item at the end.
    pub fn push(&mut self, item: Value<'p>) -> Result<(), Memory>
        ensures { OnOk result (self.new ≡ self.old ++ item.entry ∷ []) }
    {
        self.languages = Languages::Unknown(0);
        self.items.push_back(item)?;
        Ok(())
    }

    /// Moves an item out. An empty text stands in its place until `refill`.
    pub fn take(&mut self, alloc: Global, at: usize) -> Option<Value<'p>>
        ensures value { result ≡ slice_get self.old at }
        ensures rest { IfSome (slice_get self.old at) (λ v. self.new ≡ slice_set self.old at (simple [])) }
    {
        self.languages = Languages::Unknown(0);
        match self.items.get_mut(at) {
            Some(item) => Some(mem::replace(item, nothing(alloc))),
            None => None,
        }
    }

    /// Moves a value into the place of an item, or takes that out.
    pub fn refill(self, at: usize, given: Option<Value<'p>>) -> ItemQueue<'p>
        ensures { IfSome (slice_get self.entry at) (λ v. result ≡ item_put self.entry at given.entry) }
    {
        let ItemQueue {
            items,
            languages: _languages,
        } = self;
        let mut items = items;
        match given {
            Some(value) => put(&mut items, at, value),
            None => {
                items.remove(at);
            }
        }
        let languages = Languages::Unknown(0);
        ItemQueue { items, languages }
    }

    /// Items whose one of a language becomes a text, or with one more. Where many such edits come one
    /// after the other, each takes the time of a search in a map.
    pub fn said(
        self,
        alloc: Global,
        tag: &Text<'_>,
        text: &Text<'_>,
    ) -> Result<ItemQueue<'p>, RuleStop>
        ensures { Gives rule_of result (said tag.now text.now self.entry (tag_place tag.now self.entry)) }
    {
        let ItemQueue { items, languages } = self;
        match languages {
            // Once so many were looked at, a map costs no more than that did.
            Languages::Unknown(looks) if looks / LOOKS <= items.len() => {
                looked(alloc, tag, text, items, looks)
            }
            languages => mapped(alloc, tag, text, items, languages),
        }
    }
}

/// Items with a text of a language that is looked for.
fn looked<'p>(
    alloc: Global,
    tag: &Text<'_>,
    text: &Text<'_>,
    items: VecDeque<Value<'p>>,
    looks: usize,
) -> Result<ItemQueue<'p>, RuleStop>
    ensures { Gives rule_of result (said tag.now text.now items.entry.items (tag_place tag.now items.entry.items)) }
{
    let items = Items::from_vec(items.into_vec());
    let place = tag_place(items.as_slice(), tag.bytes());
    let looks = looks.saturating_add(place.unwrap_or(items.len()));
    let items = said_at(alloc, tag, text, items, place)?;
    Ok(ItemQueue {
        items: VecDeque::from_vec(items.into_vec()),
        languages: Languages::Unknown(looks),
    })
}

/// Items with a text of a language that is found through the map.
fn mapped<'p>(
    alloc: Global,
    tag: &Text<'_>,
    text: &Text<'_>,
    items: VecDeque<Value<'p>>,
    languages: Languages,
) -> Result<ItemQueue<'p>, RuleStop>
    requires known { Knows languages items.items }
    ensures { Gives rule_of result (said tag.now text.now items.entry.items (tag_place tag.now items.entry.items)) }
{
    let items = Items::from_vec(items.into_vec());
    let spoken = known(alloc, items, languages)?;
    let Spoken { items, places } = said(alloc, tag, text, spoken)?;
    Ok(ItemQueue {
        items: VecDeque::from_vec(items.into_vec()),
        languages: Languages::Known(places),
    })
}

/// Moves a value in.
fn put<'p>(items: &mut VecDeque<Value<'p>>, at: usize, value: Value<'p>)
    ensures { IfSome (slice_get items.old.items at) (λ v. items.new.items ≡ slice_set items.old.items at value.entry) }
{
    if let Some(item) = items.get_mut(at) {
        *item = value;
    }
}
