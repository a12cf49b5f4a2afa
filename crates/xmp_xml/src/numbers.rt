//! Numbers that stand for namespaces.

ghost use Rattle.std.specs.Prelude.{◌≡◌, ◌+◌, ◌<◌, ◌≤◌, ◌^◌, ℕ, List, Some, IfOk};
ghost use Rattle.std.specs.BTreeMap.{btree_map_len};
ghost use Rattle.xmp_xml.specs.Numbers.{number_in, mark_in};

use crate::named::{Named, with_name};
use std::alloc::Global;
use std::collections::BTreeMap;
use xmp_values::Memory;

/// A number for each namespace that was met, so that two of them are compared in no time, however
/// long they are: 0 for the empty one, and for the others from 1 in the order of the text.
#[derive(Drop)]
pub struct Numbers {
    named: Named,
    ghost below: { (q : List ℕ) (n : ℕ) → number_in named q ≡ Some n → n ≤ btree_map_len named },
    ghost small: { (q : List ℕ) (n : ℕ) → number_in named q ≡ Some n → n < 2 ^ 64 },
    ghost distinct: { (x y : List ℕ) (n : ℕ) → number_in named x ≡ Some n → number_in named y ≡ Some n → x ≡ y },
}

impl Numbers {
    pub fn new(alloc: Global) -> Numbers {
        Numbers {
            named: BTreeMap::new(alloc),
        }
    }

    /// The mark of a namespace, which is its number in bytes. A namespace that has none gets one.
    pub fn with(self, alloc: Global, space: &[u8]) -> Result<(Numbers, [u8; 8]), Memory>
        ensures mark { IfOk result (λ x. mark_in x.0.named space.now ≡ Some x.1) }
        ensures kept { IfOk result (λ x. (q t : List ℕ) → mark_in self.named q ≡ Some t → mark_in x.0.named q ≡ Some t) }
    {
        let (numbers, number) = self.numbered(alloc, space)?;
        Ok((numbers, (number as u64).to_be_bytes()))
    }

    fn numbered(self, alloc: Global, space: &[u8]) -> Result<(Numbers, usize), Memory>
        ensures number { IfOk result (λ x. number_in x.0.named space.now ≡ Some x.1) }
        ensures kept { IfOk result (λ x. (q : List ℕ) (n : ℕ) → number_in self.named q ≡ Some n → number_in x.0.named q ≡ Some n) }
    {
        if space.is_empty() {
            return Ok((self, 0));
        }
        if let Some(number) = self.named.get(space) {
            let number = *number;
            return Ok((self, number));
        }
        let Numbers { named } = self;
        let number = named.len() + 1;
        Ok((
            Numbers {
                named: with_name(alloc, named, space, number)?,
            },
            number,
        ))
    }
}
