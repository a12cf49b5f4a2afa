use super::*;
use std::alloc::Global;
use std::test::Fail;

/// Texts that are put into one set, one after the other, and whether each is new.
const TEXTS: [(&str, bool); 5] = [
    ("b", true),
    ("a", true),
    ("b", false),
    ("", true),
    ("a", false),
];

/// Namespaces and prefixes that are put into one list, and whether the list stays valid with each.
const HINTS: [(&str, &str, bool); 6] = [
    ("urn:a", "a", true),
    ("urn:b", "a", true),
    ("urn:a", "b", false),
    ("", "c", false),
    ("urn:c", "1c", false),
    ("http://www.w3.org/2000/xmlns/", "d", false),
];

fn is_new_as_said(set: &mut TextSet<'static>) -> bool {
    for (text, is_new) in TEXTS {
        if set.insert(text.as_bytes()) != Ok(is_new) {
            return false;
        }
    }
    true
}

fn hint(alloc: Global, space: &str, prefix: &str) -> Result<Hint, Memory> {
    let space = Bytes::from_slice(alloc, space.as_bytes())?;
    let prefix = Bytes::from_slice(alloc, prefix.as_bytes())?;
    Ok(Hint { space, prefix })
}

/// The hints that stay; None where one stays or goes that shouldn't.
fn valid_hints(alloc: Global) -> Option<Hints> {
    let mut hints = Hints::new(alloc);
    for (space, prefix, stays) in HINTS {
        let hint = hint(alloc, space, prefix).ok()?;
        if hints.push_if_valid(hint) != Ok(stays) {
            return None;
        }
    }
    Some(hints)
}

fn is_text(found: Option<&[u8]>, text: &str) -> bool {
    match found {
        Some(bytes) => bytes == text.as_bytes(),
        None => false,
    }
}

#[test]
fn a_set_keeps_the_first_of_each_text_in_order(rt: HostRuntime) -> Result<(), Fail> {
    let mut set = TextSet::new(rt.alloc());
    assert!(rt; is_new_as_said(&mut set));
    assert!(rt; set.len() == 3);
    assert!(rt; set.place_of(b"b".as_slice()) == Some(0));
    assert!(rt; set.place_of(b"".as_slice()) == Some(2));
    assert!(rt; !set.contains(b"c".as_slice()));
    Ok(())
}

#[test]
fn a_list_of_hints_takes_those_with_which_it_stays_valid(rt: HostRuntime) -> Result<(), Fail> {
    let Some(hints) = valid_hints(rt.alloc()) else {
        return Err(Fail::from("a hint stays or goes that shouldn't"));
    };
    assert!(rt; hints.len() == 2);
    Ok(())
}

#[test]
fn a_map_finds_the_first_hint_of_a_namespace_and_of_a_prefix(rt: HostRuntime) -> Result<(), Fail> {
    let Some(hints) = valid_hints(rt.alloc()) else {
        return Err(Fail::from("a hint stays or goes that shouldn't"));
    };
    let map = HintMap::new(rt.alloc(), hints.as_slice())?;
    assert!(rt; is_text(map.space_of(b"a".as_slice()), "urn:a"));
    assert!(rt; is_text(map.prefix_of(b"urn:b".as_slice()), "a"));
    assert!(rt; map.prefix_of(b"urn:c".as_slice()).is_none());
    Ok(())
}
