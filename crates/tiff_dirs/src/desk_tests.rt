//! Walks over a desk that moves few bytes a call, or fails at a call.
ghost use Rattle.std.specs.Prelude.{◌<◌};
ghost use Rattle.tiff_dirs.specs.Layouts.{BeginsTiff};

use crate::tests::{FORMS, branches};
use crate::{Dirs, WalkStop};
use std::alloc::Global;
use std::test::Fail;
use xmp_base::MemoryDesk;
use xmp_values::Memory;

/// The numbers of directories and of pictures, or what stopped the walk.
type Walked = Result<(usize, usize), WalkStop>;

/// Walks a file on a desk that moves at most so many bytes a call and fails at this call.
fn walk_on_desk(alloc: Global, file: &[u8], most: u64, failing: u64) -> Result<Walked, Memory>
    requires begins { BeginsTiff file.now }
    requires moves { 0 < most }
{
    let mut desk = MemoryDesk::new(alloc);
    desk.add("a.tif", file)?;
    desk.cut(most);
    desk.fail(failing)?;
    match Dirs::walk_from(alloc, &mut desk, "a.tif") {
        Ok(dirs) => Ok(Ok((dirs.directories(), dirs.pictures()))),
        Err(stop) => Ok(Err(stop)),
    }
}

/// The first answer that isn't the device's failure, where the call that fails is the first, the
/// second, and so on.
fn past_failures(alloc: Global, file: &[u8], most: u64) -> Result<Walked, Memory>
    requires begins { BeginsTiff file.now }
    requires moves { 0 < most }
{
    for failing in 1..1_000 {
        match walk_on_desk(alloc, file, most, failing)? {
            Err(WalkStop::Device) => (),
            answer => return Ok(answer),
        }
    }
    Ok(Err(WalkStop::Device))
}

#[test]
fn short_reads(rt: HostRuntime) -> Result<(), Fail> {
    for form in FORMS {
        let file = branches(rt.alloc(), form)?;
        for most in [1, 3, 7, 1_000] {
            // No call has the number 0.
            assert_eq!(rt;
                walk_on_desk(rt.alloc(), file.as_slice(), most, 0)?,
                Ok((5, 1))
            );
        }
    }
    Ok(())
}

#[test]
fn each_call_may_fail(rt: HostRuntime) -> Result<(), Fail> {
    for form in FORMS {
        let file = branches(rt.alloc(), form)?;
        for most in [5, 1_000] {
            let first = walk_on_desk(rt.alloc(), file.as_slice(), most, 1)?;
            assert_eq!(rt; first, Err(WalkStop::Device));
            assert_eq!(rt;
                past_failures(rt.alloc(), file.as_slice(), most)?,
                Ok((5, 1))
            );
        }
    }
    Ok(())
}
