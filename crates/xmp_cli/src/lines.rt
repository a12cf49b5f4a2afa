//! The line on `err` for each status.
ghost use Rattle.std.specs.Prelude.{◌≡◌, ◌+◌, ◌≤◌, ◌++◌, length, codes, decimal};
ghost use Rattle.arrayvec.specs.ArrayString.{array_string_len};
ghost use Rattle.xmp_cli.specs.Lines.{line, part_name, refused_line};

use crate::status::Status;
use arrayvec::ArrayString;
use itoa::Buffer;
use xmp_values::{Fault, Part};

/// Room for every line: none is longer than 200 bytes.
pub type Line = ArrayString<256>;

/// The line for a status, with its LF. It is empty where the command did its work.
pub fn line_of(status: Status) -> Line
    ensures { result.bytes ≡ line status }
{
    match status {
        Status::Refused(fault) => refused_line(fault),
        Status::Done | Status::Findings => Line::new(),
        Status::Usage => line_from(
            "usage: xmp get FILE PATH | tree FILE | set FILE OUT PATH VALUE | apply FILE OUT SCRIPT | patch FILE SCRIPT | reconcile FILE OUT | check FILE | demo NUMBER | sync FILE OUT\n",
        ),
        Status::Device => line_from("device\n"),
        Status::Memory => line_from("memory\n"),
    }
}

pub fn line_from(text: &str) -> Line
    requires { length text.now ≤ 256 }
    ensures bytes { result.bytes ≡ text.now }
    ensures len { array_string_len result ≡ length text.now }
{
    let mut line = Line::new();
    line.push_str(text);
    line
}

fn refused_line(fault: Fault) -> Line
    ensures { result.bytes ≡ refused_line fault }
{
    let mut line = line_from("refused ");
    line.push_str(fault.rule.name());
    line.push_str(" ");
    line.push_str(part_name(fault.place.part));
    push_number(&mut line, fault.place.at);
    push_number(&mut line, fault.x);
    push_number(&mut line, fault.y);
    line.push_str("\n");
    line
}

/// A space and a number in decimal.
pub fn push_number(line: &mut Line, number: u64)
    requires { array_string_len line.old + 41 ≤ 256 }
    ensures bytes { line.new.bytes ≡ line.old.bytes ++ codes " " ++ decimal number }
    ensures len { array_string_len line.new ≤ array_string_len line.old + 41 }
{
    let mut digits = Buffer::new();
    line.push_str(" ");
    line.push_str(digits.format(number));
}

fn part_name(part: Part) -> &'static str
    ensures name { result.now ≡ part_name part }
    ensures short { length result.now ≤ 8 }
{
    match part {
        Part::File => "file",
        Part::Main => "main",
        Part::Extended => "extended",
        Part::Script => "script",
        Part::Words => "words",
        Part::Exif => "exif",
        Part::Iptc => "iptc",
    }
}
