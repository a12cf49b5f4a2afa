//! Cutting a file of a device, which keeps the picture where it is.
ghost use Rattle.std.specs.Prelude.{◌≡◌, ℕ, ◌+◌, ◌-◌, ◌≤◌, ◌<◌, ◌^◌, List, length, IfOk, IsTrue, min, Err, Some};
ghost use Rattle.xmp_base.specs.Device.{Told, Rose, bytes_of, is_known, len_of};
ghost use Rattle.xmp_base.specs.Windows.{ReadInside};
ghost use Rattle.xmp_values.specs.declared.stops.DeviceStop.TheVariants.{Device};
ghost use Rattle.jpeg_regions.specs.Jpeg.{Cuts};
ghost use Rattle.jpeg_regions.specs.Wanted.{count_of};
ghost use Rattle.jpeg_regions.specs.Cutting.{BeginsJpeg, CutSoFar, Numbers, Tiles, left};
ghost use Rattle.jpeg_regions.specs.FromDesk.{AdvanceAnswer, CutCalls, CutFromCall, CutKnownCall, StopsIn};

use crate::cutting::take;
use crate::list::Regions;
use crate::reading::{Found, Reading};
use crate::{CutStop, JpegStop};
use std::alloc::Global;
use xmp_base::{Desk, Failed, SizeStop, fill_from};
use xmp_values::Rule;

/// Reads the bytes that are wanted, and takes them.
fn advance<D: Desk>(
    desk: &mut D,
    name: &str,
    found: &mut Vec<Found>,
    reading: Reading,
) -> Result<Option<Reading>, CutStop>
    requires known { IsTrue (is_known (D.state desk.old) name.now) }
    requires len { len_of (D.state desk.old) name.now ≡ reading.len }
    requires numbers { Numbers reading.len found.old.items (Some reading) }
    ensures calls { ReadInside (D.state desk.old) (D.state desk.new) name.now reading.at
        (reading.at + min (count_of reading.wants) (reading.len - reading.at)) }
    ensures less { IfOk result (λ next. left next < left (Some reading)) }
    ensures numbers { IfOk result (λ next. Numbers reading.len found.new.items next) }
    ensures answer { Told (D.state desk.old).files (λ files. length (bytes_of files name.now) ≡ reading.len
        → CutSoFar (bytes_of files name.now) found.old.items (Some reading) → AdvanceAnswer (bytes_of files name.now) found.new.items result) }
    ensures fault { StopsIn reading.len result }
    ensures device { result ≡ Err Device → Rose (D.state desk.old).faults (D.state desk.new).faults }
{
    let wanted = reading.wanted();
    let mut buffer = [0u8; 75];
    let piece = &mut buffer[..(wanted.end - wanted.start) as usize];
    match fill_from(desk, name, wanted.start, piece) {
        Ok(()) => (),
        Err(Failed) => return Err(CutStop::Device),
    }
    match take(found, reading, piece) {
        Ok(next) => Ok(next),
        Err(JpegStop::Fault(rule, place)) => Err(CutStop::Fault(rule, place)),
        Err(JpegStop::Memory) => Err(CutStop::Memory),
    }
}

impl Regions {
    /// The regions of a file of a device. Of a region no byte is read after the 75th of its
    /// payload, and of the tail none after its marker. A file that has gone since it was known
    /// has no byte left. A fault is the first broken rule, of 10 to 14, with its place in the file.
    pub fn cut_from<D: Desk>(alloc: Global, desk: &mut D, name: &str) -> Result<Regions, CutStop>
        requires known { IsTrue (is_known (D.state desk.old) name.now) }
        requires begins { Told (D.state desk.old).files (λ files. BeginsJpeg (bytes_of files name.now)) }
        ensures call { CutFromCall (D.state desk.old) (D.state desk.new) name.now result }
    {
        let len = match desk.size(name) {
            Ok(len) => len,
            Err(SizeStop::Absent) => return Err(CutStop::Fault(Rule::NoTail, 0)),
            Err(SizeStop::Failed) => return Err(CutStop::Device),
        };
        Regions::cut_known(alloc, desk, name, len)
    }

    /// The regions of a file of a device that has `len` bytes, as `cut_from` gives them. The device
    /// isn't asked for the length again.
    pub fn cut_known<D: Desk>(
        alloc: Global,
        desk: &mut D,
        name: &str,
        len: u64,
    ) -> Result<Regions, CutStop>
        requires known { IsTrue (is_known (D.state desk.old) name.now) }
        requires len { len_of (D.state desk.old) name.now ≡ len }
        requires told { Told (D.state desk.old).files (λ files. length (bytes_of files name.now) ≡ len) }
        requires begins { Told (D.state desk.old).files (λ files. BeginsJpeg (bytes_of files name.now)) }
        ensures call { CutKnownCall (D.state desk.old) (D.state desk.new) name.now len result }
    {
        if len < 2 {
            return Err(CutStop::Fault(Rule::NoTail, len));
        }
        let mut found = Vec::new(alloc);
        let mut next = Some(Reading::new(len, 2));
        while let Some(reading) = next {
            next = match advance(desk, name, &mut found, reading) {
                Ok(next) => next,
                Err(stop) => return Err(stop),
            };
        }
        match Regions::of(found) {
            Ok(regions) => Ok(regions),
            Err((rule, place)) => Err(CutStop::Fault(rule, place)),
        }
    }
}
