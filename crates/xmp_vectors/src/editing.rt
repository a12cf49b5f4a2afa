//! Runs of `set` and `apply` over a sidecar: the report, the line on `err`, and OUT.
use crate::runs::{Edited, SOUND, run_edit};
use crate::{PHOTO, TYPED, USUAL, USUAL_LINES};
use std::alloc::{AllocError, Global};
use std::test::Fail;
use xmp_values::Memory;

/// What begins a packet, before the text of its tree.
const HEADER: &str = "<?xpacket begin=\"\u{FEFF}\" id=\"W5M0MpCehiHzreSzNTczkc9d\"?>\n";

/// The tree of `PHOTO` with another format.
pub const TIFF: &str = "<x:xmpmeta xmlns:x=\"adobe:ns:meta/\">
<rdf:RDF xmlns:rdf=\"http://www.w3.org/1999/02/22-rdf-syntax-ns#\">
<rdf:Description rdf:about=\"\" xmlns:dc=\"http://purl.org/dc/elements/1.1/\">
<dc:format>image/tiff</dc:format>
</rdf:Description>
</rdf:RDF>
</x:xmpmeta>
";

/// The same with a format that is longer by one byte.
const RAW: &str = "<x:xmpmeta xmlns:x=\"adobe:ns:meta/\">
<rdf:RDF xmlns:rdf=\"http://www.w3.org/1999/02/22-rdf-syntax-ns#\">
<rdf:Description rdf:about=\"\" xmlns:dc=\"http://purl.org/dc/elements/1.1/\">
<dc:format>image/x-raw</dc:format>
</rdf:Description>
</rdf:RDF>
</x:xmpmeta>
";

/// A packet: a text, so much padding with a line feed after each 99 spaces and at its end, and
/// whether it may be written in its place.
pub fn packet(alloc: Global, text: &str, padding: usize, end: &str) -> Result<Vec<u8>, AllocError> {
    let mut bytes = HEADER.as_bytes().to_vec(alloc)?;
    bytes.extend_from_slice(text.as_bytes())?;
    for place in 0..padding {
        let is_end = place % 100 == 99 || padding - place == 1;
        bytes.push(if is_end { b'\n' } else { b' ' })?;
    }
    bytes.extend_from_slice(b"<?xpacket end=\"")?;
    bytes.extend_from_slice(end.as_bytes())?;
    bytes.extend_from_slice(b"\"?>")?;
    Ok(bytes)
}

/// Whether `set` of the format of this file ends with this report, and writes this file.
fn sets(alloc: Global, file: &[u8], value: &str, report: &str, new: &[u8]) -> Result<bool, Memory> {
    let words = ["set", "a.xmp", "out", "dc:format", value];
    let ran = run_edit(alloc, &words, file, b"", SOUND)?;
    Ok(ran.ended(report, "") && ran.wrote(new))
}

#[test]
fn set_writes_a_packet(rt: HostRuntime) -> Result<(), Fail> {
    let alloc = rt.alloc();
    for (padding, end, value, report, text, pad, out_end) in [
        (0, "w", "image/tiff", "in-place 328\n", TIFF, 0, "w"),
        (100, "w", "image/tiff", "in-place 428\n", TIFF, 100, "w"),
        (
            0,
            "w",
            "image/x-raw",
            "relocated 328 2377\n",
            RAW,
            2048,
            "w",
        ),
        (
            100,
            "r",
            "image/tiff",
            "relocated 428 2376\n",
            TIFF,
            2048,
            "w",
        ),
        (100, "r", "image/jpeg", "same 428\n", PHOTO, 100, "r"),
    ] {
        let file = packet(alloc, PHOTO, padding, end)?;
        let new = packet(alloc, text, pad, out_end)?;
        assert!(rt; sets(alloc, &file, value, report, &new)?, "{report}");
    }
    let new = packet(alloc, TIFF, 2048, "w")?;
    assert!(rt;
        sets(
            alloc,
            PHOTO.as_bytes(),
            "image/tiff",
            "relocated 255 2376\n",
            &new
        )?
    );
    Ok(())
}

const ARRAY: &str = "array dc:subject bag
append dc:subject a
insert dc:subject 1 b
qualify dc:subject[1] xmp:Label q
delete dc:subject[2]
";

const ARRAY_LINES: &str = "about 
dc:format text image/jpeg
dc:subject bag 1
dc:subject[1] text b
dc:subject[1]/?xmp:Label text q
";

const BOUND: &str = "set dc:subject x\nns demo http://e/\nset demo:a y";

const BOUND_LINES: &str = "about 
dc:format text image/jpeg
dc:subject text x
demo:a text y
";

const ESCAPES: &str = "set dc:source a\\rb\\nc\\td&e<f]]>\u{1F600}";

const ESCAPED_LINES: &str = "about 
dc:format text image/jpeg
dc:source text a\\rb\\nc\\td&e<f]]>\u{1F600}
";

const ESCAPED: &str = "\n<dc:source>a&#xD;b\nc\td&amp;e&lt;f]]&gt;\u{1F600}</dc:source>\n";

const TYPED_NEW: &str = "about 
dc:creator struct 1
dc:creator/?rdf:type uri http://ns.adobe.com/xap/1.0/Person
dc:creator/dc:format text v
dc:format text x
";

const TYPED_TEXT: &str =
    "\n<dc:creator rdf:parseType=\"Resource\"><rdf:value rdf:parseType=\"Resource\"><dc:format>v</dc:format></rdf:value><rdf:type rdf:resource=\"http://ns.adobe.com/xap/1.0/Person\"/></dc:creator>\n";

/// A language is added to the titles, as the first where it is the default.
const TITLES: &str = "dc:title alt 4
dc:title[1] text Sea
dc:title[1]/?xml:lang text x-default
dc:title[2] text Sea
dc:title[2]/?xml:lang text en
";

/// What `tree` sends of the file that `apply` of a script writes.
fn applied(alloc: Global, file: &str, script: &str) -> Result<Edited, Memory> {
    let words = ["apply", "a.xmp", "out", "script"];
    run_edit(alloc, &words, file.as_bytes(), script.as_bytes(), SOUND)
}

/// Whether `apply` of a script writes a file that `tree` shows by these lines, and that has this text.
fn writes(
    alloc: Global,
    file: &str,
    script: &str,
    lines: &str,
    text: &str,
) -> Result<bool, Memory> {
    let ran = applied(alloc, file, script)?;
    Ok(ran.is_done() && ran.has(text) && ran.shows(alloc, lines)?)
}

#[test]
fn apply_writes_the_tree_of_a_script(rt: HostRuntime) -> Result<(), Fail> {
    for (file, script, lines, text) in [
        (PHOTO, ARRAY, ARRAY_LINES, ""),
        (PHOTO, BOUND, BOUND_LINES, " xmlns:demo=\"http://e/\">"),
        (PHOTO, ESCAPES, ESCAPED_LINES, ESCAPED),
        (TYPED, "set dc:format x", TYPED_NEW, TYPED_TEXT),
        (USUAL, "setlang dc:title x-default Sea", TITLES, ""),
    ] {
        assert!(rt; writes(rt.alloc(), file, script, lines, text)?, "{script}");
    }
    Ok(())
}

/// Whether `apply` of a script leaves the bytes of a file, and says so.
fn stays(alloc: Global, file: &str, script: &str, report: &str) -> Result<bool, Memory> {
    let ran = applied(alloc, file, script)?;
    Ok(ran.ended(report, "") && ran.wrote(file.as_bytes()))
}

#[test]
fn a_tree_that_stays_keeps_its_bytes(rt: HostRuntime) -> Result<(), Fail> {
    for script in [
        "",
        "# none\r\n",
        "set dc:format image/jpeg",
        "set dc:title a\ndelete dc:title",
    ] {
        assert!(rt; stays(rt.alloc(), PHOTO, script, "same 255\n")?, "{script}");
    }
    Ok(())
}

/// Whether `apply` of a script is refused by this line, with no OUT.
fn refuses(alloc: Global, file: &str, script: &[u8], line: &str) -> Result<bool, Memory> {
    let words = ["apply", "a.xmp", "out", "script"];
    let ran = run_edit(alloc, &words, file.as_bytes(), script, SOUND)?;
    Ok(ran.ended("", line) && ran.wrote_none())
}

#[test]
fn a_refused_script_writes_no_file(rt: HostRuntime) -> Result<(), Fail> {
    for (script, line) in [
        ("set dc:source x\nfrob", "refused BadLine script 2 0 0\n"),
        (
            "set dc:source x\ndelete dc:title",
            "refused NoSuchPlace script 2 0 0\n",
        ),
        (
            "set dc:format/xmp:Label x",
            "refused WrongShape script 1 0 0\n",
        ),
        (
            "array dc:subject bag\ninsert dc:subject 3 c",
            "refused OutOfArray script 2 0 0\n",
        ),
        ("set none:a x", "refused UnknownPrefix script 1 0 0\n"),
    ] {
        assert!(rt;
            refuses(rt.alloc(), PHOTO, script.as_bytes(), line)?,
            "{line}"
        );
    }
    assert!(rt;
        refuses(
            rt.alloc(),
            PHOTO,
            b"# \xFF",
            "refused ScriptUtf8 script 2 0 0\n"
        )?
    );
    // The packet is read before SCRIPT.
    assert!(rt;
        refuses(
            rt.alloc(),
            "<a>",
            b"frob",
            "refused Unfinished main 3 0 0\n"
        )?
    );
    Ok(())
}

/// Whether these words are refused by this line, with no OUT.
fn words_refused(alloc: Global, words: &[&str], line: &str) -> Result<bool, Memory> {
    let ran = run_edit(alloc, words, PHOTO.as_bytes(), b"", SOUND)?;
    Ok(ran.ended("", line) && ran.wrote_none())
}

#[test]
fn refused_words_write_no_file(rt: HostRuntime) -> Result<(), Fail> {
    for (words, line) in [
        (
            ["set", "a.xmp", "out", "dc:title[1]", "x"],
            "refused NoSuchPlace words 3 0 0\n",
        ),
        (
            ["set", "a.xmp", "out", "title", "x"],
            "refused BadPath words 3 0 0\n",
        ),
        (
            ["set", "a.xmp", "out", "dc:title", "\u{1}"],
            "refused BadText words 4 0 0\n",
        ),
        (
            ["set", "none", "out", "dc:title", "x"],
            "refused NoFile file 0 0 0\n",
        ),
    ] {
        assert!(rt; words_refused(rt.alloc(), &words, line)?, "{line}");
    }
    let apply = ["apply", "a.xmp", "out", "none"];
    assert!(rt; words_refused(rt.alloc(), &apply, "refused NoFile script 0 0 0\n")?);
    Ok(())
}

#[test]
fn a_long_script_and_a_long_text_are_refused(rt: HostRuntime) -> Result<(), Fail> {
    let alloc = rt.alloc();
    let script = vec![in alloc; b'#'; 1_048_577]?;
    let long = "refused ScriptLimit script 0 1048577 1048576\n";
    assert!(rt; refuses(alloc, PHOTO, script.as_slice(), long)?);
    assert!(rt; refuses(alloc, PHOTO, &script[1..], "")? == false);
    let value = String::from_utf8(vec![in alloc; b'a'; 16_774_851]?)
        .ok()
        .ok_or("utf-8")?;
    let words = ["set", "a.xmp", "out", "dc:format", value.as_str()];
    assert!(rt; words_refused(alloc, &words, "refused XmpLimit main 0 16777217 16777216\n")?);
    Ok(())
}
