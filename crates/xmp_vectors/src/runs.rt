//! Runs over devices in memory, and how they end.
use crate::PHOTO;
use std::alloc::{AllocError, Global};
use xmp_base::{MemoryDesk, MemorySink, SparseDesk};
use xmp_cli::{Status, run, run_in_memory};
use xmp_values::{Fault, Memory, Part, Words};

/// The line of what isn't built yet.
pub const NOT_BUILT: &str = "refused NotBuilt file 0 0 0\n";

/// The numbers of the calls that are planned to fail, from 1, of the three devices. 0 plans none.
#[derive(Clone, Copy)]
pub struct Plan {
    pub desk: u64,
    pub out: u64,
    pub err: u64,
}

/// No call is planned to fail.
pub const SOUND: Plan = Plan {
    desk: 0,
    out: 0,
    err: 0,
};

/// How a run ended, and what was sent.
#[derive(Drop)]
pub struct Ran {
    pub status: Status,
    pub out: MemorySink,
    pub err: MemorySink,
}

impl Ran {
    /// Whether it ended with the status that this line tells, and sent this text and this line.
    pub fn ended(&self, text: &str, line: &str) -> bool {
        is_told(self.status, line) && self.sent(text, line)
    }

    /// Whether this text went to `out`, and this line to `err`.
    pub fn sent(&self, text: &str, line: &str) -> bool {
        self.out.sent() == text.as_bytes() && self.err.sent() == line.as_bytes()
    }
}

/// Whether a status is the one that a line tells, which is Done where there is no line.
pub fn is_told(status: Status, line: &str) -> bool {
    match status {
        Status::Done => line.is_empty(),
        Status::Usage => line.starts_with("usage: "),
        Status::Device => line == "device\n",
        Status::Refused(fault) => is_fault(fault, line),
        Status::Findings | Status::Memory => false,
    }
}

/// Whether a fault is that of a line: `refused`, the rule, the part, the place and two numbers.
fn is_fault(fault: Fault, line: &str) -> bool {
    let Some(line) = line.strip_suffix('\n') else {
        return false;
    };
    let mut words = line.split(' ');
    words.next() == Some("refused")
        && words.next() == Some(fault.rule.name())
        && words.next() == Some(part_name(fault.place.part))
        && is_number(words.next(), fault.place.at)
        && is_number(words.next(), fault.x)
        && is_number(words.next(), fault.y)
        && words.next().is_none()
}

fn part_name(part: Part) -> &'static str {
    match part {
        Part::File => "file",
        Part::Main => "main",
        Part::Extended => "extended",
        Part::Script => "script",
        Part::Words => "words",
        Part::Exif => "exif",
        Part::Iptc => "iptc",
    }
}

fn is_number(word: Option<&str>, number: u64) -> bool {
    match word {
        Some(word) => word.parse::<u64>().ok() == Some(number),
        None => false,
    }
}

/// The words of a line, which single spaces part.
pub fn split<'t>(alloc: Global, line: &'t str) -> Result<Vec<&'t str>, AllocError> {
    let mut words = Vec::new(alloc);
    for word in line.split(' ') {
        words.push(word)?;
    }
    Ok(words)
}

pub fn words_of(alloc: Global, list: &[&str]) -> Result<Words, Memory> {
    let mut words = Words::new(alloc);
    for word in list {
        words.push(word)?;
    }
    Ok(words)
}

/// A desk that holds `photo.xmp` and moves at most 7 bytes a call.
fn desk_of(alloc: Global) -> Result<MemoryDesk, Memory> {
    let mut desk = MemoryDesk::new(alloc);
    desk.add("photo.xmp", PHOTO.as_bytes())?;
    desk.cut(7);
    Ok(desk)
}

pub fn sink_of(alloc: Global, fails: u64) -> Result<MemorySink, Memory> {
    let mut sink = MemorySink::new(alloc);
    if fails > 0 {
        sink.fail(fails)?;
    }
    Ok(sink)
}

/// Runs the words over the desk with `photo.xmp`.
pub fn run_words(alloc: Global, list: &[&str], plan: Plan) -> Result<Ran, Memory> {
    let words = words_of(alloc, list)?;
    let mut desk = desk_of(alloc)?;
    if plan.desk > 0 {
        desk.fail(plan.desk)?;
    }
    let mut out = sink_of(alloc, plan.out)?;
    let mut err = sink_of(alloc, plan.err)?;
    let status = run_in_memory(alloc, &words, &mut desk, &mut out, &mut err);
    Ok(Ran { status, out, err })
}

/// Runs the words over `a.xmp` of these bytes.
pub fn run_over(alloc: Global, list: &[&str], file: &[u8]) -> Result<Ran, Memory> {
    let words = words_of(alloc, list)?;
    let mut desk = MemoryDesk::new(alloc);
    desk.add("a.xmp", file)?;
    let mut out = MemorySink::new(alloc);
    let mut err = MemorySink::new(alloc);
    let status = run_in_memory(alloc, &words, &mut desk, &mut out, &mut err);
    Ok(Ran { status, out, err })
}

/// How a run of a command that writes `out` ended, and what it left.
#[derive(Drop)]
pub struct Edited {
    ran: Ran,
    desk: MemoryDesk,
}

impl Edited {
    /// Whether it ended with the status that this line tells, and sent this text and this line.
    pub fn ended(&self, text: &str, line: &str) -> bool {
        self.ran.ended(text, line)
    }

    pub fn is_done(&self) -> bool {
        is_told(self.ran.status, "")
    }

    pub fn out(&self) -> Option<&[u8]> {
        self.desk.bytes_of("out")
    }

    /// Whether `out` has these bytes.
    pub fn wrote(&self, bytes: &[u8]) -> bool {
        match self.out() {
            Some(out) => out == bytes,
            None => false,
        }
    }

    pub fn wrote_none(&self) -> bool {
        self.out().is_none()
    }

    /// Whether `out` is as these bytes begin, or isn't there.
    pub fn began(&self, bytes: &[u8]) -> bool {
        match self.out() {
            Some(out) => bytes.starts_with(out),
            None => true,
        }
    }

    /// Whether this text stands in `out`.
    pub fn has(&self, text: &str) -> bool {
        match self.out() {
            Some(out) => text.is_empty()
                || out.windows(text.len()).any(|part| part == text.as_bytes()),
            None => false,
        }
    }

    /// Whether these lines stand in what `tree` sends of `out`.
    pub fn shows(&self, alloc: Global, lines: &str) -> Result<bool, Memory> {
        let Some(out) = self.out() else {
            return Ok(false);
        };
        let ran = run_over(alloc, &["tree", "a.xmp"], out)?;
        let sent = ran.out.sent();
        Ok(
            is_told(ran.status, "")
                && sent
                    .windows(lines.len().max(1))
                    .any(|part| part == lines.as_bytes()),
        )
    }
}

/// Runs the words over `a.xmp` and `script`, on a desk that moves at most 64 bytes a call.
pub fn run_edit(
    alloc: Global,
    list: &[&str],
    file: &[u8],
    script: &[u8],
    plan: Plan,
) -> Result<Edited, Memory> {
    run_moving(alloc, list, file, script, plan, 64)
}

/// The same on a desk that moves at most so many bytes a call.
pub fn run_moving(
    alloc: Global,
    list: &[&str],
    file: &[u8],
    script: &[u8],
    plan: Plan,
    most: u64,
) -> Result<Edited, Memory> {
    let words = words_of(alloc, list)?;
    let mut desk = MemoryDesk::new(alloc);
    desk.add("a.xmp", file)?;
    desk.add("script", script)?;
    desk.cut(most.max(1));
    if plan.desk > 0 {
        desk.fail(plan.desk)?;
    }
    let mut out = sink_of(alloc, plan.out)?;
    let mut err = sink_of(alloc, plan.err)?;
    let status = run_in_memory(alloc, &words, &mut desk, &mut out, &mut err);
    Ok(Edited {
        ran: Ran { status, out, err },
        desk,
    })
}

/// Runs the words over `a.xmp` of this length, which begins so and is zeros after that.
pub fn run_length(alloc: Global, list: &[&str], front: &[u8], length: u64) -> Result<Ran, Memory> {
    let words = words_of(alloc, list)?;
    let mut desk = SparseDesk::new(alloc, "a.xmp", length)?;
    desk.piece(0, front)?;
    let mut out = MemorySink::new(alloc);
    let mut err = MemorySink::new(alloc);
    let status = run(alloc, &words, &mut desk, &mut out, &mut err);
    Ok(Ran { status, out, err })
}

/// Whether `get` and `tree` of `a.xmp` of these bytes both end with this line, and send no text.
pub fn both_refuse(alloc: Global, file: &[u8], line: &str) -> Result<bool, Memory> {
    let value = run_over(alloc, &["get", "a.xmp", "dc:format"], file)?;
    let tree = run_over(alloc, &["tree", "a.xmp"], file)?;
    Ok(value.ended("", line) && tree.ended("", line))
}
