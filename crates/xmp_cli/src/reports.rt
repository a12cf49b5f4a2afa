//! The report of a command that writes a file.
ghost use Rattle.std.specs.Prelude.{◌≡◌, ◌≤◌, length};
ghost use Rattle.xmp_cli.specs.Reports.{report, one_length, two_lengths};

use crate::lines::{Line, line_from, push_number};
use xmp_files::{Outcome, Planned};

/// A word and a length.
fn one_length(word: &str, size: u64) -> Line
    requires { length word.now ≤ 10 }
    ensures { result.bytes ≡ one_length word.now size }
{
    let mut line = line_from(word);
    push_number(&mut line, size);
    line.push_str("\n");
    line
}

/// A word and two lengths.
fn two_lengths(word: &str, old: u64, new: u64) -> Line
    requires { length word.now ≤ 10 }
    ensures { result.bytes ≡ two_lengths word.now old new }
{
    let mut line = line_from(word);
    push_number(&mut line, old);
    push_number(&mut line, new);
    line.push_str("\n");
    line
}

/// What became of a file: a word and its length, and of a file that was written anew both lengths.
pub fn report_of(planned: &Planned) -> Line
    ensures { result.bytes ≡ report planned.now.size planned.now.plan }
{
    match planned.outcome() {
        Outcome::Same => one_length("same", planned.old_len()),
        Outcome::InPlace => one_length("in-place", planned.old_len()),
        Outcome::Relocated => two_lengths("relocated", planned.old_len(), planned.new_len()),
    }
}
