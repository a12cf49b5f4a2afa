// A desk of named files, and a sink of bytes.
ghost use Rattle.std.specs.Prelude.{◌+◌, ◌≤◌, ◌<◌, ◌^◌, length, IsTrue};
ghost use Rattle.xmp_base.specs.Device.{DeskState, SinkState, is_known, len_of, SizeCall, ReadCall, CreateCall, WriteCall, SendCall};

/// A device answered with a failure, and counted it.
#[derive(Clone, Copy, Debug, PartialEq, Eq)]
pub struct Failed;

/// Why a desk gives no length.
#[derive(Clone, Copy, Debug, PartialEq, Eq)]
pub enum SizeStop {
    /// There is no file of this name. The desk's count of misses rose.
    Absent,
    /// The device failed. The desk's count of faults rose.
    Failed,
}

/// Files by name.
///
/// A name is known after a `size` or a `create` of it answered `Ok`. Places and lengths are bytes.
/// A call changes the named file at most, and fails only where the count of faults rose in it.
pub trait Desk {
    ghost state: { Self → DeskState };

    /// The length of a file. Changes no file.
    fn size(&mut self, name: &str) -> Result<u64, SizeStop>
        ensures call { SizeCall (state self.old) (state self.new) name.now result };

    /// Reads bytes from this place on into the front of `to`, and answers how many. That is 0
    /// exactly where nothing is left there or `to` is empty. Changes no file.
    fn read_at(&mut self, name: &str, at: u64, to: &mut [u8]) -> Result<usize, Failed>
        requires { IsTrue (is_known (state self.old) name.now) }
        ensures call { ReadCall (state self.old) (state self.new) name.now at to.new result };

    /// Makes this name an empty file, whether it was there or not.
    fn create(&mut self, name: &str) -> Result<(), Failed>
        ensures call { CreateCall (state self.old) (state self.new) name.now result };

    /// Writes the first bytes of a piece at this place, and answers how many: 0 exactly where the
    /// piece is empty. The file becomes longer where they reach past its end. After a failure no
    /// byte outside the piece's range has changed.
    fn write_at(&mut self, name: &str, at: u64, from: &[u8]) -> Result<usize, Failed>
        requires known { IsTrue (is_known (state self.old) name.now) }
        requires within { at ≤ len_of (state self.old) name.now }
        requires room { at + length from.now < 2 ^ 64 }
        ensures call { WriteCall (state self.old) (state self.new) name.now at from.now result };
}

/// Where output goes.
pub trait Sink {
    ghost state: { Self → SinkState };

    /// Takes the first bytes of a piece, and answers how many: 0 exactly where the piece is empty.
    /// After a failure, which is counted, nothing was taken.
    fn write(&mut self, from: &[u8]) -> Result<usize, Failed>
        ensures call { SendCall (state self.old) (state self.new) from.now result };
}
