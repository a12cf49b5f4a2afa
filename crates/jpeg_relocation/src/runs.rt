//! Regions that stay together, as one range each.
ghost use Rattle.std.specs.Prelude.{◌≡◌, ◌≤◌, length, IfOk};
ghost use Rattle.jpeg_relocation.specs.Relocation.{kept};
ghost use Rattle.jpeg_relocation.specs.Runs.{runs, with_last, part};
ghost use Rattle.jpeg_relocation.specs.Roles.{IsNext};

use crate::roles::{Role, role_of};
use jpeg_regions::Regions;
use std::alloc::Global;
use xmp_base::FileSpan;
use xmp_values::Memory;

/// A place among the regions, and the number of joined portions before it.
#[derive(Clone, Copy)]
pub struct Place {
    pub region: usize,
    pub portion: usize,
}

/// The runs of the regions that stay from a place up to another.
pub fn runs_of(
    alloc: Global,
    regions: &Regions,
    joined: &[FileSpan],
    from: Place,
    to: usize,
) -> Result<Vec<FileSpan>, Memory>
    requires order { from.region ≤ to }
    requires within { to ≤ length regions.now }
    requires next { IsNext joined.now regions.now from.region from.portion }
    ensures { IfOk result (λ spans. spans.items ≡ runs (kept joined.now (part regions.now from.region to))) }
{
    let mut spans = Vec::new(alloc);
    let mut portion = from.portion;
    for i in from.region..to {
        match role_of(regions, i, joined, portion) {
            Role::Kept => add_range(&mut spans, regions.range(i))?,
            Role::Main => {}
            Role::Joined => portion += 1,
        }
    }
    Ok(spans)
}

/// Adds a range at the end, to the last one where it ends there.
fn add_range(spans: &mut Vec<FileSpan>, range: FileSpan) -> Result<(), Memory>
    ensures { IfOk result (λ _. spans.new.items ≡ with_last spans.old.items range) }
{
    match spans.pop() {
        Some(last) => {
            if last.end == range.start {
                spans.push(FileSpan {
                    start: last.start,
                    end: range.end,
                })?;
            } else {
                spans.push(last)?;
                spans.push(range)?;
            }
        }
        None => spans.push(range)?,
    }
    Ok(())
}
