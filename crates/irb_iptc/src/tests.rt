//! Lists and blocks of the standards' forms.

use crate::{Datasets, IptcStop, IrbStop, Resources, digest_of, stored_digest_mut};
use std::alloc::Global;
use std::test::Fail;
use xmp_base::{FileSpan, Span};
use xmp_values::{Memory, Rule};

/// A block 1028 of a keyword `cat`, and a block 1061 of 16 zero bytes.
const LIST: &[u8] =
    b"8BIM\x04\x04\0\0\0\0\0\x08\x1c\x02\x19\0\x03cat8BIM\x04\x25\0\0\0\0\0\x10\0\0\0\0\0\0\0\0\0\0\0\0\0\0\0\0";

/// The end of a list, or the place of its fault.
fn end_of(alloc: Global, bytes: &[u8]) -> Result<Result<u64, u64>, Memory> {
    match Resources::of(alloc, bytes) {
        Ok(list) => Ok(Ok(list.list_end())),
        Err(IrbStop::Fault(place)) => Ok(Err(place)),
        Err(IrbStop::Memory) => Err(Memory),
    }
}

/// The number of datasets of a block, or its fault.
fn count_of(alloc: Global, block: &[u8]) -> Result<Result<usize, (Rule, u64)>, Memory> {
    match Datasets::of(alloc, block) {
        Ok(datasets) => Ok(Ok(datasets.len())),
        Err(IptcStop::Fault(rule, place)) => Ok(Err((rule, place))),
        Err(IptcStop::Memory) => Err(Memory),
    }
}

#[test]
fn ends_of_lists(rt: HostRuntime) -> Result<(), Fail> {
    let cases: [(&[u8], Result<u64, u64>); 12] = [
        (b"", Ok(0)),
        (b"8BI", Ok(0)),
        (b"8BPS\0\x01\0\0", Ok(0)),
        (b"8BIM", Err(0)),
        (b"8BIM\x04\x04\x02", Err(0)),
        (LIST, Ok(48)),
        (&LIST[..47], Err(20)),
        (&LIST[..24], Err(20)),
        (&LIST[..23], Ok(20)),
        // The last block may lack its pad byte.
        (b"8BIM\x04\x04\0\0\0\0\0\x01a", Ok(13)),
        (b"8BIM\x04\x04\0\0\0\0\0\x01a\0", Ok(14)),
        // A name of three bytes is even with its length byte.
        (b"8BIM\x04\x04\x03abc\0\0\0\x01a\0", Ok(16)),
    ];
    for (bytes, end) in cases {
        assert_eq!(rt; end_of(rt.alloc(), bytes)?, end, "of {bytes:?}");
    }
    Ok(())
}

#[test]
fn blocks_of_a_list(rt: HostRuntime) -> Result<(), Fail> {
    let list = Resources::of(rt.alloc(), LIST).map_err(|_| Memory)?;
    assert_eq!(rt; list.span(1028), Some(Span { start: 12, end: 20 }));
    assert_eq!(rt; list.first_at(1061), Some(FileSpan { start: 32, end: 48 }));
    assert_eq!(rt; list.whole_at(1028), Some(FileSpan { start: 0, end: 20 }));
    assert_eq!(rt; list.second_at(1028), None);
    assert_eq!(rt; list.span(1060), None);
    Ok(())
}

#[test]
fn faults_of_blocks(rt: HostRuntime) -> Result<(), Fail> {
    let cases: [(&[u8], Result<usize, (Rule, u64)>); 13] = [
        (b"", Ok(0)),
        (b"\0\0", Ok(0)),
        (b"\0\x1c", Err((Rule::BadDataset, 0))),
        (b"\xff", Err((Rule::BadDataset, 0))),
        (b"\x1c\x02\x19\0\x01a\0", Ok(1)),
        (b"\x1c\x02\x19\0\0A", Err((Rule::BadDataset, 5))),
        (b"\x1c\x02\x19\0\x05a", Err((Rule::DatasetOut, 0))),
        (b"\x1c\x02\x19", Err((Rule::DatasetOut, 0))),
        (b"\x1c\x02\x19\x80\0", Err((Rule::DatasetLong, 0))),
        (b"\x1c\x02\x19\x80\x05", Err((Rule::DatasetLong, 0))),
        (b"\x1c\x02\x19\x80\x02\0", Err((Rule::DatasetOut, 0))),
        (b"\x1c\x02\x19\x80\x01\x01a", Ok(1)),
        (
            b"\x1c\x02\x19\x80\x04\0\x01\0\0a",
            Err((Rule::DatasetOut, 0)),
        ),
    ];
    for (block, count) in cases {
        assert_eq!(rt; count_of(rt.alloc(), block)?, count, "of {block:?}");
    }
    Ok(())
}

/// The digest of the block of the keyword `cat`.
const CAT_DIGEST: &[u8] = b"\x8d\xa2\x63\xab\xad\xdb\x13\x0c\x60\x5d\x9c\xf7\x84\x21\xe4\xad";

#[test]
fn digests_of_blocks(rt: HostRuntime) -> Result<(), Fail> {
    let cases: [(&[u8], &[u8]); 4] = [
        (
            b"abc",
            b"\x90\x01\x50\x98\x3c\xd2\x4f\xb0\xd6\x96\x3f\x7d\x28\xe1\x7f\x72",
        ),
        (b"\x1c\x02\x19\0\x03cat", CAT_DIGEST),
        (
            b"\x1c\x02\x19\0\x03dog",
            b"\xce\xef\xd1\x70\x0f\x37\x28\x7d\xc3\xc9\xd9\x80\xcb\x5c\x21\x53",
        ),
        (
            b"\x1c\x02\x19\0\x03cat\x1c\x02\x19\0\x03sea\x1c\x02\x19\0\x03cat",
            b"\x2d\x51\x93\x28\x8f\xa4\x3b\xa0\xa7\x28\x00\x49\x44\xa0\x1d\x95",
        ),
    ];
    for (block, digest) in cases {
        assert_eq!(rt; digest_of(block).as_slice(), digest, "of {block:?}");
    }
    Ok(())
}

/// Exchanges the digest that a list stores, if it stores one.
fn renew(alloc: Global, list: &mut [u8], digest: &[u8; 16]) -> Result<bool, Memory> {
    let Ok(_list) = Resources::of(alloc, list) else {
        return Err(Memory);
    };
    match stored_digest_mut(list) {
        Some(stored) => {
            *stored = *digest;
            Ok(true)
        }
        None => Ok(false),
    }
}

#[test]
fn the_stored_digest_is_renewed(rt: HostRuntime) -> Result<(), Fail> {
    let digest = digest_of(&LIST[12..20]);
    let mut list = Vec::from_slice(rt.alloc(), LIST)?;
    assert!(rt; renew(rt.alloc(), list.as_mut_slice(), &digest)?);
    let (front, stored) = list.as_slice().split_at(32);
    assert_eq!(rt; front, &LIST[..32]);
    assert_eq!(rt; stored, CAT_DIGEST);
    Ok(())
}

#[test]
fn another_size_stores_no_digest(rt: HostRuntime) -> Result<(), Fail> {
    // The first block 1061 counts, and has 2 bytes.
    let mut list = Vec::from_slice(rt.alloc(), b"8BIM\x04\x25\0\0\0\0\0\x02ab".as_slice())?;
    list.extend_from_slice(&LIST[20..])?;
    assert!(rt; !renew(rt.alloc(), list.as_mut_slice(), &[7; 16])?);
    assert_eq!(rt; &list.as_slice()[14..], &LIST[20..]);
    Ok(())
}

#[test]
fn a_fault_of_the_block_in_a_list(rt: HostRuntime) -> Result<(), Fail> {
    let list = b"8BIM\x04\x04\0\0\0\0\0\x06\x1c\x02\x19\0\x05a";
    let resources = Resources::of(rt.alloc(), list).map_err(|_| Memory)?;
    assert_eq!(rt; resources.span(1028), Some(Span { start: 12, end: 18 }));
    assert_eq!(rt;
        count_of(rt.alloc(), &list[12..])?,
        Err((Rule::DatasetOut, 0))
    );
    Ok(())
}
