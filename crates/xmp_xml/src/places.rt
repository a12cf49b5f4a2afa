//! Where prefixes are bound.

ghost use Rattle.std.specs.Prelude.{◌≡◌, ℕ, List, Option, None, IfOk, bytes_eq, if◌then◌else◌};
ghost use Rattle.xml_grammar.specs.Scopes.{same_prefix};
ghost use Rattle.xmp_xml.specs.Named.{named_at};
ghost use Rattle.xmp_xml.specs.Places.{place_at};

use crate::named::{Named, with_name, without_name};
use std::alloc::Global;
use std::collections::BTreeMap;
use xmp_values::{Memory, Text};

/// The place of each prefix that is bound, and that of the default namespace.
#[derive(Drop)]
pub struct Places {
    default: Option<usize>,
    named: Named,
}

impl Places {
    pub fn new(alloc: Global) -> Places
        ensures { (q : Option (List ℕ)) → place_at result q ≡ None }
    {
        Places {
            default: None,
            named: BTreeMap::new(alloc),
        }
    }

    /// The place of a prefix. The time grows as the logarithm of their number.
    pub fn get(&self, prefix: &Option<Text<'_>>) -> Option<usize>
        ensures { result ≡ place_at self.now prefix.now }
    {
        match prefix {
            None => self.default,
            Some(name) => self.named.get(name.bytes()).copied(),
        }
    }

    /// The places with this one, or none, for a prefix.
    pub fn with(
        self,
        alloc: Global,
        prefix: &Option<Text<'_>>,
        place: Option<usize>,
    ) -> Result<Places, Memory>
        ensures { IfOk result (λ s. (q : Option (List ℕ)) → place_at s q ≡ (if same_prefix prefix.now q then place else place_at self q)) }
    {
        let Places { default, named } = self;
        match prefix {
            None => Ok(Places {
                default: place,
                named,
            }),
            Some(name) => Ok(Places {
                default,
                named: placed(alloc, named, name.bytes(), place)?,
            }),
        }
    }
}

fn placed(alloc: Global, named: Named, name: &[u8], place: Option<usize>) -> Result<Named, Memory>
    ensures { IfOk result (λ m. (q : List ℕ) → named_at m q ≡ (if bytes_eq name.now q then place else named_at named q)) }
{
    match place {
        Some(place) => with_name(alloc, named, name, place),
        None => Ok(without_name(named, name)),
    }
}
