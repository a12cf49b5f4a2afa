// A whole file.
ghost use Rattle.xmp_base.specs.Whole.{ReadAll};

use crate::{Desk, Failed, SizeStop, fill_from};
use std::alloc::Global;
use xmp_values::Bytes;

/// Why a file isn't read whole.
#[derive(Clone, Copy, Debug, PartialEq, Eq)]
pub enum ReadStop {
    /// There is no file of this name. The desk's count of misses rose.
    Absent,
    /// The file has so many bytes, which is over the limit.
    TooLarge(u64),
    /// The desk failed. Its count of faults rose.
    Device,
    /// There was no memory for a file within the limit.
    Memory,
}

/// The bytes of a file of at most `limit` bytes.
///
/// Asks for the length first, and then reads each byte once, from the first on. Where several
/// answers are due the first of `ReadStop` that holds is given, but a failure of the desk comes at
/// the call that failed. Changes no file, and reads of no other name.
pub fn read_all<D: Desk>(
    alloc: Global,
    desk: &mut D,
    name: &str,
    limit: u64,
) -> Result<Bytes, ReadStop>
    ensures call { ReadAll (D.state desk.old) (D.state desk.new) name.now limit result }
{
    let size = match desk.size(name) {
        Ok(size) => size,
        Err(SizeStop::Absent) => return Err(ReadStop::Absent),
        Err(SizeStop::Failed) => return Err(ReadStop::Device),
    };
    if size > limit {
        return Err(ReadStop::TooLarge(size));
    }
    let Ok(mut items) = vec![in alloc; 0u8; size as usize] else {
        return Err(ReadStop::Memory);
    };
    match fill_from(desk, name, 0, items.as_mut_slice()) {
        Ok(()) => Ok(Bytes::from_vec(items)),
        Err(Failed) => Err(ReadStop::Device),
    }
}
