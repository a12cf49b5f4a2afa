//! Cutting a file into its regions.
ghost use Rattle.std.specs.Prelude.{◌≡◌, ℕ, ◌+◌, ◌-◌, ◌≤◌, ◌<◌, ◌⊎◌, [], ◌∷◌, List, length, take, drop, min, IfOk};
ghost use Rattle.jpeg_regions.specs.Wanted.{count_of};
ghost use Rattle.jpeg_regions.specs.Cutting.{BeginsJpeg, CutAnswer, CutSoFar, IsFaultIn, Numbers, TakeAnswer, Tiles, left};

use crate::JpegStop;
use crate::list::Regions;
use crate::reading::{Found, Reading, Step};
use std::alloc::Global;

/// Takes the bytes that were wanted, and answers how to go on: not at all after the tail.
pub fn take(
    found: &mut Vec<Found>,
    reading: Reading,
    piece: &[u8],
) -> Result<Option<Reading>, JpegStop>
    requires piece { length piece.now ≡ min (count_of reading.wants) (reading.len - reading.at) }
    requires numbers { Numbers reading.len found.old.items (Some reading) }
    ensures less { IfOk result (λ next. left next < left (Some reading)) }
    ensures numbers { IfOk result (λ next. Numbers reading.len found.new.items next) }
    ensures fault { IsFaultIn reading.len result }
    ensures answer { (file : List ℕ) → length file ≡ reading.len → CutSoFar file found.old.items (Some reading)
        → piece.now ≡ take (count_of reading.wants) (drop reading.at file) → TakeAnswer file found.new.items result }
{
    match reading.step(piece) {
        Ok(Step::More(next)) => Ok(Some(next)),
        Ok(Step::Inner(region)) => {
            let Ok(()) = found.push(region) else {
                return Err(JpegStop::Memory);
            };
            Ok(Some(Reading::new(reading.len, region.end)))
        }
        Ok(Step::Last(region)) => {
            let Ok(()) = found.push(region) else {
                return Err(JpegStop::Memory);
            };
            Ok(None)
        }
        Err(rule) => Err(JpegStop::Fault(rule, reading.start)),
    }
}

impl Regions {
    /// The regions of a file in memory, which begins FF D8, or its first
    /// fault, of rules 10 to 14, with its place in the file (ISO 10918-1, B.1.1).
    pub fn cut(alloc: Global, bytes: &[u8]) -> Result<Regions, JpegStop>
        requires { BeginsJpeg bytes.now }
        ensures answer { CutAnswer bytes.now result }
        ensures tiles { IfOk result (λ regions. Tiles 2 (length bytes.now) regions) }
    {
        let mut found = Vec::new(alloc);
        let mut next = Some(Reading::new(bytes.len() as u64, 2));
        while let Some(reading) = next {
            let wanted = reading.wanted();
            let piece = &bytes[wanted.start as usize..wanted.end as usize];
            next = take(&mut found, reading, piece)?;
        }
        match Regions::of(found) {
            Ok(regions) => Ok(regions),
            Err((rule, place)) => Err(JpegStop::Fault(rule, place)),
        }
    }
}
