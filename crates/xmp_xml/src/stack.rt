//! A stack.

ghost use Rattle.std.specs.Prelude.{◌≡◌, [], ◌∷◌, length, reverse, slice_get, MatchOption, OnOk, OnErr};
ghost use Rattle.std.specs.Option.{option_copied};

use std::alloc::Global;
use std::marker::Model;
use xmp_values::Memory;

/// Items of which the last is at hand; to contracts a list that begins with it.
#[derive(Debug, Drop)]
pub struct Stack<T> {
    items: Vec<T>,
}

impl<T> Model for Stack<T> {
    ghost use Rattle.std.specs.Prelude.{List, reverse};
    ghost use Rattle.std.specs.Coded.{coded_list};

    ghost Value = { List T };

    ghost coded = { coded_list T.code };

    ghost view = { λ s. reverse s.items.items };
}

impl<T: Drop> Stack<T> {
    ghost use Rattle.xmp_xml.specs.Building.{is_nil};

    pub fn new(alloc: Global) -> Stack<T>
        ensures { result ≡ [] }
    {
        Stack {
            items: Vec::new(alloc),
        }
    }

    pub fn len(&self) -> usize
        ensures { result ≡ length self.now }
    {
        self.items.len()
    }

    #[tactic(auto, using(crate::proofs::Nests::nil_is))]
    pub fn is_empty(&self) -> bool
        ensures { result ≡ is_nil self.now }
    {
        self.items.len() == 0
    }

    /// The item at a height, of which the bottom is 0.
    pub fn get(&self, height: usize) -> Option<&T>
        ensures { option_copied result ≡ slice_get (reverse self.now) height }
    {
        self.items.get(height)
    }

    pub fn push(&mut self, item: T) -> Result<(), Memory>
        ensures ok { OnOk result (self.new ≡ item ∷ self.old) }
        ensures err { OnErr result (self.new ≡ self.old) }
    {
        self.items.push(item)?;
        Ok(())
    }

    pub fn pop(&mut self) -> Option<T>
        ensures { MatchOption result ((self.old ≡ []) × (self.new ≡ [])) (λ top. self.old ≡ top ∷ self.new) }
    {
        self.items.pop()
    }
}
