//! The pairs of a file, whose ranges are read from the pieces that are kept.
ghost use Rattle.std.specs.Prelude.{◌≡◌, ◌+◌, ◌*◌, ◌≤◌, ◌<◌, All, length, map, take, slice_get, IfOk, IfSome, Some};
ghost use Rattle.tiff_dirs.specs.Nearest.{closest};
ghost use Rattle.tiff_dirs.specs.Pairs.{AreKept, IsCounted, IsPair, IsRanked, IsTable, bytes_by, count_of, listed_from, ranges_by, spans_by};

use crate::listed::Listed;
use crate::pieces::{Piece, piece_with};
use crate::ranges::{closest_range, count_ranges, nth_range};
use crate::tables::{CountedPair, Pair, Pairs, PlacedPair, Table};
use std::alloc::Global;
use xmp_base::FileSpan;
use xmp_values::Memory;

/// The index of the piece that has so many numbers, of one to eight bytes each.
fn table_piece(table: &Table, count: u64, pieces: &[Piece], len: u64) -> Option<usize>
    ensures table { IfSome result (λ k. IsTable len pieces.now k table.now.start (table.now.width * count)) }
    ensures least { IfSome result (λ _. 1 ≤ table.now.width) }
    ensures most { IfSome result (λ _. table.now.width ≤ 8) }
{
    let width = table.width;
    if width == 0 || width > 8 {
        return None;
    }
    let Some(size) = width.checked_mul(count) else {
        return None;
    };
    piece_with(pieces, table.start, size, len)
}

/// A pair with the pieces that have its tables.
fn placed_pair(len: u64, pieces: &[Piece], pair: &Pair) -> Option<PlacedPair>
    ensures pair { IfSome result (λ p. p.pair ≡ pair.now) }
    ensures placed { IfSome result (IsPair len pieces.now) }
{
    let Some(offsets) = table_piece(&pair.offsets, pair.count, pieces, len) else {
        return None;
    };
    let Some(lens) = table_piece(&pair.lens, pair.count, pieces, len) else {
        return None;
    };
    Some(PlacedPair {
        pair: *pair,
        offsets,
        lens,
    })
}

/// The bytes of a table from its start on.
fn table_bytes<'a>(pieces: &'a [Piece], k: usize, start: u64, size: u64, len: u64) -> &'a [u8]
    requires { IsTable len pieces.now k start size }
    ensures is { result.now ≡ bytes_by (slice_get pieces.now k) start }
    ensures size { size ≤ length result.now }
{
    let piece = &pieces[k];
    &piece.bytes.as_slice()[(start - piece.start) as usize..]
}

/// The bytes of a pair.
fn listed_by<'a>(big: bool, len: u64, pieces: &'a [Piece], placed: &PlacedPair) -> Listed<'a>
    requires { IsPair len pieces.now placed.now }
    ensures { listed_from result 0 ≡ ranges_by big pieces.now placed.now }
{
    let pair = placed.pair;
    let size = pair.offsets.width * pair.count;
    let len_size = pair.lens.width * pair.count;
    Listed {
        big,
        pair,
        offsets: table_bytes(pieces, placed.offsets, pair.offsets.start, size, len),
        lens: table_bytes(pieces, placed.lens, pair.lens.start, len_size, len),
    }
}

/// A pair with its pieces and the number of its ranges, after so many of others.
fn counted_pair(
    big: bool,
    len: u64,
    pieces: &[Piece],
    pair: &Pair,
    first: u64,
) -> Option<CountedPair>
    ensures pair { IfSome result (λ c. c.placed.pair ≡ pair.now) }
    ensures first { IfSome result (λ c. c.first ≡ first) }
    ensures counted { IfSome result (IsCounted big len pieces.now) }
{
    let Some(placed) = placed_pair(len, pieces, pair) else {
        return None;
    };
    let listed = listed_by(big, len, pieces, &placed);
    match count_ranges(&listed, len) {
        Ok(shown) => Some(CountedPair {
            placed,
            first,
            shown,
        }),
        Err(_) => None,
    }
}

/// The pairs with their pieces and their ranges counted.
pub fn kept_pairs(
    alloc: Global,
    big: bool,
    len: u64,
    pieces: &[Piece],
    pairs: &[Pair],
) -> Result<Pairs, Memory>
    ensures pairs { IfOk result (λ kept. map (λ c. c.placed.pair) kept.list.items ≡ pairs.now) }
    ensures kept { IfOk result (AreKept big len pieces.now) }
{
    let mut list = Vec::new(alloc);
    let mut total = 0u64;
    for pair in pairs {
        let Some(counted) = counted_pair(big, len, pieces, pair, total) else {
            return Err(Memory);
        };
        let Some(more) = total.checked_add(counted.shown) else {
            return Err(Memory);
        };
        let Ok(()) = list.push(counted) else {
            return Err(Memory);
        };
        total = more;
    }
    Ok(Pairs { list, total })
}

/// The index of the pair that has range `i`.
fn pair_of(pairs: &[CountedPair], i: u64) -> usize
    requires ranked { IsRanked pairs.now }
    requires within { i < count_of pairs.now }
    ensures least { count_of (take result pairs.now) ≤ i }
    ensures most { i < count_of (take (result + 1) pairs.now) }
    ensures within { result < length pairs.now }
{
    let mut low = 0;
    let mut high = pairs.len();
    while high - low > 1 {
        let middle = low + (high - low) / 2;
        if pairs[middle].first <= i {
            low = middle;
        } else {
            high = middle;
        }
    }
    low
}

/// Range `i` of the pairs.
pub fn kept_range(big: bool, len: u64, pieces: &[Piece], pairs: &[CountedPair], i: u64) -> FileSpan
    requires each { All (IsCounted big len pieces.now) pairs.now }
    requires ranked { IsRanked pairs.now }
    requires within { i < count_of pairs.now }
    ensures { slice_get (spans_by big pieces.now pairs.now) i ≡ Some result }
{
    let counted = &pairs[pair_of(pairs, i)];
    let listed = listed_by(big, len, pieces, &counted.placed);
    nth_range(&listed, len, counted.shown, i - counted.first)
}

/// The best with the ranges of the pairs.
pub fn closest_kept(
    big: bool,
    len: u64,
    pieces: &[Piece],
    pairs: &[CountedPair],
    own: FileSpan,
    best: Option<FileSpan>,
) -> Option<FileSpan>
    requires { All (IsCounted big len pieces.now) pairs.now }
    ensures { result ≡ closest own best (spans_by big pieces.now pairs.now) }
{
    let mut best = best;
    for counted in pairs {
        let listed = listed_by(big, len, pieces, &counted.placed);
        best = closest_range(&listed, len, own, best);
    }
    best
}
