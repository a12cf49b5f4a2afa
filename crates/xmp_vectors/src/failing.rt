//! `set` and `apply` where each call of the desk fails in its turn, and where the report isn't sent.
use crate::PHOTO;
use crate::editing::packet;
use crate::runs::{Edited, Plan, SOUND, run_edit};
use std::alloc::Global;
use std::test::Fail;
use xmp_values::Memory;

/// Runs over a packet without padding, and how they end where no call fails.
#[derive(Drop)]
struct Runs<'t> {
    words: &'t [&'t str],
    file: &'t [u8],
    script: &'t str,
    text: &'t str,
    line: &'t str,
}

impl Runs<'_> {
    fn run(&self, alloc: Global, plan: Plan) -> Result<Edited, Memory> {
        run_edit(alloc, self.words, self.file, self.script.as_bytes(), plan)
    }

    /// Whether the run whose call of this number fails ends as it must: the failure is told and nothing
    /// sent, and OUT has begun at most. None where there is no such call, and all goes well.
    fn turn(&self, alloc: Global, whole: &[u8], fails: u64) -> Result<Option<bool>, Memory> {
        let plan = Plan {
            desk: fails,
            ..SOUND
        };
        let ran = self.run(alloc, plan)?;
        if ran.ended(self.text, self.line) {
            return Ok(None);
        }
        Ok(Some(ran.ended("", "device\n") && ran.began(whole)))
    }

    /// How many calls there are, each of which fails as it must; 0 where one doesn't.
    fn calls(&self, alloc: Global) -> Result<u64, Memory> {
        let ran = self.run(alloc, SOUND)?;
        let whole = ran.out().unwrap_or(b"");
        for fails in 1..200 {
            match self.turn(alloc, whole, fails)? {
                Some(true) => {}
                Some(false) => return Ok(0),
                None => return Ok(fails - 1),
            }
        }
        Ok(0)
    }
}

const ARRAY: &str = "array dc:subject bag
append dc:subject a
insert dc:subject 1 b
qualify dc:subject[1] xmp:Label q
delete dc:subject[2]
";

#[test]
fn each_call_that_fails_is_told_and_leaves_a_beginning(rt: HostRuntime) -> Result<(), Fail> {
    let alloc = rt.alloc();
    let file = packet(alloc, PHOTO, 0, "w")?;
    let tiff = ["set", "a.xmp", "out", "dc:format", "image/tiff"];
    let raw = ["set", "a.xmp", "out", "dc:format", "image/x-raw"];
    let apply = ["apply", "a.xmp", "out", "script"];
    for (words, script, text, line, calls) in [
        (tiff.as_slice(), "", "in-place 328\n", "", 15),
        (raw.as_slice(), "", "relocated 328 2377\n", "", 47),
        (apply.as_slice(), ARRAY, "relocated 328 2552\n", "", 52),
        (
            apply.as_slice(),
            "set dc:source x\nfrob",
            "",
            "refused BadLine script 2 0 0\n",
            10,
        ),
    ] {
        let runs = Runs {
            words,
            file: &file,
            script,
            text,
            line,
        };
        assert_eq!(rt; runs.calls(alloc)?, calls, "{text}");
    }
    Ok(())
}

#[test]
fn a_report_that_is_not_sent_is_told_after_the_file(rt: HostRuntime) -> Result<(), Fail> {
    let alloc = rt.alloc();
    let file = packet(alloc, PHOTO, 0, "w")?;
    let words = ["set", "a.xmp", "out", "dc:format", "image/jpeg"];
    let plan = Plan { out: 1, ..SOUND };
    let ran = run_edit(alloc, &words, &file, b"", plan)?;
    assert!(rt; ran.ended("", "device\n") && ran.wrote(&file));
    Ok(())
}
