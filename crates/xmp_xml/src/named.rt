//! Maps from names.

ghost use Rattle.std.specs.Prelude.{◌≡◌, ◌+◌, ℕ, List, Some, None, is_some, IfOk, if◌then◌else◌};
ghost use Rattle.std.specs.BTreeMap.{btree_map_len};
ghost use Rattle.std.specs.Str.{bytes_eq};
ghost use Rattle.xmp_xml.specs.Named.{named_at};

use std::alloc::Global;
use std::collections::BTreeMap;
use xmp_values::{Bytes, Memory};

/// A number for each of some names in bytes.
pub type Named = BTreeMap<Vec<u8>, usize>;

/// The map with this number for a name.
pub fn with_name(alloc: Global, map: Named, name: &[u8], number: usize) -> Result<Named, Memory>
    ensures puts { IfOk result (λ m. (q : List ℕ) → named_at m q ≡ (if bytes_eq name.now q then Some number else named_at map q)) }
    ensures len { IfOk result (λ m. btree_map_len m ≡ btree_map_len map + (if is_some (named_at map name.now) then 0 else 1)) }
{
    let mut more = map;
    more.insert(Bytes::from_slice(alloc, name)?.into_vec(), number)?;
    Ok(more)
}

/// The map with no number for a name.
pub fn without_name(map: Named, name: &[u8]) -> Named
    ensures { (q : List ℕ) → named_at result q ≡ (if bytes_eq name.now q then None else named_at map q) }
{
    let mut fewer = map;
    fewer.remove(name);
    fewer
}
