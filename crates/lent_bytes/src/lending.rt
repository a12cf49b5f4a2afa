//! Parts of a slice.
ghost use Rattle.std.specs.Prelude.{◌≡◌, ◌+◌, ◌≤◌, ◌++◌, length, take, drop, slice_range};
ghost use Rattle.std.specs.Borrow.{sem, Lends, Array};
ghost use Rattle.lent_bytes.specs.Lending.{LendsPart};

use std::slice::from_raw_parts_mut;

/// The bytes from `start` up to `end`, to be written. The whole is then the old one with these
/// replaced.
pub fn part_mut(bytes: &mut [u8], start: usize, end: usize) -> &mut [u8]
    requires order { start ≤ end }
    requires within { end ≤ length bytes.old }
    ensures* writes_back { sem 𝓛 (LendsPart bytes.entry start end result) }
    ensures value { result.now ≡ slice_range bytes.old start end }
{
    // The range lies inside the slice, which is lent as long as the part.
    unsafe { from_raw_parts_mut(bytes.as_mut_ptr().add(start), end - start) }
}

/// The N elements from `at` on as an array, to be written. The whole is then the old one with these
/// replaced. Unlike a part of a slice, an array can be lent on inside an `Option`.
pub fn array_at_mut<T, const N: usize>(items: &mut [T], at: usize) -> &mut [T; N]
    requires { at + N ≤ length items.old }
    ensures* writes_back { sem 𝓛 (Lends (Array T.row 0) (Array T.row 0) items.entry result (λ ws. take at items.old ++ (ws ++ drop N (drop at items.old)))) }
    ensures value { result.now ≡ take N (drop at items.old) }
{
    // The elements lie inside the slice, which is lent as long as the array.
    unsafe { &mut *(items.as_mut_ptr().add(at) as *mut [T; N]) }
}
