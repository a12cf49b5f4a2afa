//! Laws over the definitions: functions that do nothing, each with a law as its contract.
ghost use Rattle.std.specs.Prelude.{◌≡◌, Option, List, ℕ};
ghost use Rattle.std.specs.declared.result.Result.{Result};
ghost use Rattle.xmp_values.specs.declared.faults.Fault.{Fault};
ghost use Rattle.xmp_files.specs.declared.held.Need.{Need};
ghost use Rattle.xmp_files.specs.declared.opening.Opened.{Opened};
ghost use Rattle.xmp_files.specs.Keeping.{Kept};
ghost use Rattle.xmp_files.specs.Loading.{IsLoaded};
ghost use Rattle.xmp_files.specs.Opening.{IsOpened, Holds};
ghost use Rattle.xmp_files.specs.Written.{FileIsWritten};
ghost use Rattle.xmp_files.specs.Patching.{FileIsPatched};

use xmp_xml::document_or_fault;

/// What is kept of a file is one thing, or its first fault is one.
pub fn one_kept()
    ensures { (need : Need) (file : Option (List ℕ)) (a b : Result Kept Fault) → IsLoaded need file a → IsLoaded need file b → a ≡ b }
{}

/// So is what it means.
pub fn one_opened()
    ensures { (kept : Kept) (a b : Result Opened Fault) → IsOpened kept a → IsOpened kept b → a ≡ b }
{}

/// And both together.
pub fn one_meaning()
    ensures { (file : Option (List ℕ)) (a b : Result Opened Fault) → Holds file a → Holds file b → a ≡ b }
{}

/// A file that is written by a plan is read as the new tree, and keeps what the plan says.
pub fn file_is_written()
    ensures { FileIsWritten }
{}

/// A file that is patched is read as the old tree, as the new one, or it is refused.
pub fn file_is_patched()
    ensures { FileIsPatched }
{
    document_or_fault();
}
