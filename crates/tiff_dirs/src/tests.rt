//! Small files in both layouts and both byte orders, and one fault of each kind.
ghost use Rattle.std.specs.Prelude.{◌≤◌, length, IfOk};
ghost use Rattle.tiff_dirs.specs.Layouts.{BeginsTiff};

use crate::{Dirs, Entry, TiffStop};
use std::alloc::{AllocError, Global};
use std::test::Fail;
use xmp_base::FileSpan;
use xmp_values::{Memory, Rule};

/// The two layouts in the two byte orders: whether it is BigTIFF, and whether it is big-endian.
pub const FORMS: [(bool, bool); 4] = [(false, false), (false, true), (true, false), (true, true)];

/// The numbers of a file after its first four bytes.
#[derive(Drop)]
struct Body {
    wide: bool,
    big: bool,
    bytes: Vec<u8>,
}

impl Body {
    /// The rest of a header, with the offset of the first directory.
    fn new(alloc: Global, form: (bool, bool), offset: u64) -> Result<Body, AllocError> {
        let (wide, big) = form;
        let mut body = Body {
            wide,
            big,
            bytes: Vec::new(alloc),
        };
        if wide {
            body.put(8, 2)?;
            body.put(0, 2)?;
        }
        body.word(offset)?;
        Ok(body)
    }

    /// A number of up to eight bytes.
    fn put(&mut self, number: u64, width: u32) -> Result<(), AllocError>
        requires { width ≤ 8 }
    {
        for k in 0..width {
            let place = if self.big { width - 1 - k } else { k };
            let byte = (number >> (8 * place)) & 0xff;
            self.bytes.push(byte as u8)?;
        }
        Ok(())
    }

    fn word(&mut self, number: u64) -> Result<(), AllocError> {
        self.put(number, if self.wide { 8 } else { 4 })
    }

    fn count(&mut self, number: u64) -> Result<(), AllocError> {
        self.put(number, if self.wide { 8 } else { 2 })
    }

    fn entry(&mut self, tag: u64, code: u64, count: u64, value: u64) -> Result<(), AllocError> {
        self.put(tag, 2)?;
        self.put(code, 2)?;
        self.word(count)?;
        self.word(value)
    }

    /// The file.
    fn file(&self, alloc: Global) -> Result<Vec<u8>, AllocError>
        ensures { IfOk result (λ file. BeginsTiff file.items) }
    {
        let mut file = match (self.wide, self.big) {
            (false, false) => vec![in alloc; 0x49, 0x49, 42, 0]?,
            (false, true) => vec![in alloc; 0x4d, 0x4d, 0, 42]?,
            (true, false) => vec![in alloc; 0x49, 0x49, 43, 0]?,
            (true, true) => vec![in alloc; 0x4d, 0x4d, 0, 43]?,
        };
        file.extend_from_slice(self.bytes.as_slice())?;
        Ok(file)
    }
}

/// What a walk gives: the numbers of directories, of entries of the first and of pictures, or the
/// fault.
type Walked = Result<(usize, usize, usize), (Rule, u64, u64, u64)>;

/// Walks a file that begins with these four bytes.
fn walked(alloc: Global, file: &[u8]) -> Result<Walked, Memory>
    requires { BeginsTiff file.now }
{
    match Dirs::walk(alloc, file) {
        Ok(dirs) => {
            let count = dirs.directories();
            let entries = if count == 0 { 0 } else { dirs.entries(0) };
            Ok(Ok((count, entries, dirs.pictures())))
        }
        Err(TiffStop::Fault(rule, place, x, y)) => Ok(Err((rule, place, x, y))),
        Err(TiffStop::Memory) => Err(Memory),
    }
}

/// A directory of two entries, a strip of four bytes after it and its length, and the strip.
fn one_strip(alloc: Global, form: (bool, bool)) -> Result<Vec<u8>, AllocError>
    ensures { IfOk result (λ file. BeginsTiff file.items) }
{
    let (wide, _) = form;
    let (first, strip, long) = if wide { (16, 72, 16) } else { (8, 38, 4) };
    let mut body = Body::new(alloc, form, first)?;
    body.count(2)?;
    body.entry(273, long, 1, strip)?;
    body.entry(279, long, 1, 4)?;
    body.word(0)?;
    body.put(0x5a5a_5a5a, 4)?;
    body.file(alloc)
}

/// A directory with two strips and two tiles, whose tables stand apart from it, in five numbers. The
/// strips' offsets are the second and the third, and their lengths begin with the third. The tiles'
/// offsets are the first and the second, and their lengths the last two.
fn meeting_tables(alloc: Global, form: (bool, bool)) -> Result<Vec<u8>, AllocError>
    ensures { IfOk result (λ file. BeginsTiff file.items) }
{
    let (wide, _) = form;
    let (first, tables, word, long) = if wide {
        (16, 120, 8, 16)
    } else {
        (8, 64, 4, 4)
    };
    let mut body = Body::new(alloc, form, first)?;
    body.count(4)?;
    body.entry(273, long, 2, tables + word)?;
    body.entry(279, long, 2, tables + 2 * word)?;
    body.entry(324, long, 2, tables)?;
    body.entry(325, long, 2, tables + 3 * word)?;
    body.word(0)?;
    body.count(0)?;
    for number in [10, 20, 3, 4, 5] {
        body.word(number)?;
    }
    body.file(alloc)
}

/// Five directories that don't stand in the order in which they are reached: the first names two by
/// SubIFDs, one by Exif, and the next. It has a strip of four bytes and one of none.
pub fn branches(alloc: Global, form: (bool, bool)) -> Result<Vec<u8>, AllocError>
    ensures { IfOk result (λ file. BeginsTiff file.items) }
{
    let (wide, _) = form;
    let (first, tables, table, long, ifd) = if wide {
        (16, 112, 16, 16, 18)
    } else {
        (8, 62, 8, 4, 13)
    };
    let size = if wide { 16 } else { 6 };
    let next = tables + 3 * table;
    let strips = next + 4 * size;
    let mut body = Body::new(alloc, form, first)?;
    body.count(4)?;
    body.entry(273, long, 2, tables)?;
    body.entry(279, long, 2, tables + table)?;
    body.entry(330, ifd, 2, tables + 2 * table)?;
    body.entry(34665, long, 1, next + size)?;
    body.word(next)?;
    for number in [strips, strips, 4, 0, next + 3 * size, next + 2 * size] {
        body.word(number)?;
    }
    for _ in 0..4 {
        body.count(0)?;
        body.word(0)?;
    }
    body.put(0x5a5a_5a5a, 4)?;
    body.file(alloc)
}

/// A directory of three strips, of which the second is empty, and of JPEG interchange.
fn three_pictures(alloc: Global, form: (bool, bool)) -> Result<Vec<u8>, AllocError>
    ensures { IfOk result (λ file. BeginsTiff file.items) }
{
    let (wide, _) = form;
    let (first, tables, table, long) = if wide {
        (16, 112, 24, 16)
    } else {
        (8, 62, 12, 4)
    };
    let data = tables + 2 * table;
    let mut body = Body::new(alloc, form, first)?;
    body.count(4)?;
    body.entry(273, long, 3, tables)?;
    body.entry(279, long, 3, tables + table)?;
    body.entry(513, long, 1, data + 6)?;
    body.entry(514, long, 1, 3)?;
    body.word(0)?;
    for number in [data, data + 4, data + 4, 4, 0, 2] {
        body.word(number)?;
    }
    body.put(0, 8)?;
    body.put(0, 1)?;
    body.file(alloc)
}

/// Walks the first bytes of a file.
fn walk_front(alloc: Global, file: &[u8], len: usize) -> Result<Walked, Memory>
    requires begins { BeginsTiff file.now }
    requires least { 4 ≤ len }
    requires most { len ≤ length file.now }
{
    walked(alloc, &file[..len])
}

/// Walks a file of so many empty directories, each of which names the next.
fn walk_chain(alloc: Global, form: (bool, bool), count: u64) -> Result<Walked, Memory>
    requires { count ≤ 2000 }
{
    let (wide, _) = form;
    let (first, size) = if wide { (16, 16) } else { (8, 6) };
    let mut body = Body::new(alloc, form, first)?;
    for k in 1..count {
        body.count(0)?;
        body.word(first + size * k)?;
    }
    body.count(0)?;
    body.word(0)?;
    let file = body.file(alloc)?;
    walked(alloc, file.as_slice())
}

/// Walks a file of one directory of so many entries of one byte.
fn walk_long(alloc: Global, form: (bool, bool), count: u64) -> Result<Walked, Memory> {
    let (wide, _) = form;
    let mut body = Body::new(alloc, form, if wide { 16 } else { 8 })?;
    body.count(count)?;
    for _ in 0..count {
        body.entry(256, 1, 1, 0)?;
    }
    body.word(0)?;
    let file = body.file(alloc)?;
    walked(alloc, file.as_slice())
}

/// Walks a file of one directory of these entries, with zeros after it.
fn walk_one(
    alloc: Global,
    form: (bool, bool),
    entries: &[(u64, u64, u64, u64)],
    next: u64,
    zeros: u32,
) -> Result<Walked, Memory> {
    let (wide, _) = form;
    let mut body = Body::new(alloc, form, if wide { 16 } else { 8 })?;
    body.count(entries.len() as u64)?;
    for (tag, code, count, value) in entries {
        body.entry(*tag, *code, *count, *value)?;
    }
    body.word(next)?;
    for _ in 0..zeros {
        body.put(0, 1)?;
    }
    let file = body.file(alloc)?;
    walked(alloc, file.as_slice())
}

#[test]
fn faults_in_their_order(rt: HostRuntime) -> Result<(), Fail> {
    for form in FORMS {
        let (wide, _) = form;
        // The first entry's place, the size of an entry, and the ends of directories of two and
        // of three entries.
        let (first, entry, two, three, long) = if wide {
            (24, 20, 72, 92, 16)
        } else {
            (10, 12, 38, 50, 4)
        };
        // The header's end, and the length of a packet that stands apart from its entry.
        let (header, apart, zeros) = if wide { (16, 12, 14) } else { (8, 8, 10) };
        let none = |rule: Rule, place: u64| -> Walked { Err((rule, place, 0, 0)) };
        let cases: [(&[(u64, u64, u64, u64)], u64, u32, Walked); 18] = [
            (
                &[(273, long, 1, two), (279, long, 1, 4)],
                0,
                4,
                Ok((1, 2, 1)),
            ),
            (
                &[(273, long, 1, two), (279, long, 1, 0)],
                0,
                4,
                Ok((1, 2, 0)),
            ),
            (
                &[(273, long, 1, 99), (279, long, 2, two)],
                0,
                16,
                Ok((1, 2, 0)),
            ),
            (
                &[(273, long, 1, two), (279, long, 1, 5)],
                0,
                4,
                none(Rule::RegionOut, first),
            ),
            (
                &[(256, 1, 1, 0), (257, 1, 9, two)],
                0,
                8,
                none(Rule::ValueOut, first + entry),
            ),
            (
                &[(256, 9, 1, 0), (700, long, 1, 0)],
                0,
                0,
                none(Rule::PacketType, first + entry),
            ),
            (
                &[(700, 1, 1, 0), (700, 7, 1, 0)],
                0,
                0,
                none(Rule::TwoPackets, first + entry),
            ),
            (
                &[(330, long, 1, 3), (256, 1, 1, 0)],
                5,
                0,
                none(Rule::DirectoryOut, 3),
            ),
            (
                &[(34665, long, 1, 0), (256, 1, 1, 0)],
                0,
                0,
                none(Rule::DirectoryOut, 0),
            ),
            (
                &[(256, 1, 1, 0), (256, 1, 1, 0)],
                first,
                0,
                none(Rule::DirectoryOut, first),
            ),
            (
                &[
                    (273, long, 1, three),
                    (279, long, 1, 4),
                    (700, 1, apart, three + 2),
                ],
                0,
                zeros,
                Err((Rule::Overlap, three + 2, three, 4)),
            ),
            (
                &[
                    (273, long, 1, three),
                    (279, long, 1, 4),
                    (34377, 7, apart, three + 2),
                ],
                0,
                zeros,
                Err((Rule::Overlap, three + 2, three, 4)),
            ),
            (
                &[(256, 1, 1, 0), (700, 1, apart, two), (700, 1, 1, 0)],
                0,
                zeros,
                none(Rule::TwoPackets, first + 2 * entry),
            ),
            (
                &[(273, long, 1, two), (279, long, 1, 4)],
                header,
                4,
                none(Rule::DirectoryTwice, header),
            ),
            (
                &[(330, long, 1, header), (256, 1, 1, 0)],
                3,
                0,
                none(Rule::DirectoryTwice, header),
            ),
            (
                &[(325, long, 1, 5), (324, long, 1, two)],
                0,
                4,
                none(Rule::RegionOut, first + entry),
            ),
            (
                &[(513, long, 1, two), (514, long, 1, 4)],
                0,
                4,
                Ok((1, 2, 1)),
            ),
            (
                &[(273, long, 1, 0), (279, long, 1, 1), (34377, 7, 9, three)],
                0,
                9,
                Ok((1, 3, 1)),
            ),
        ];
        for (entries, next, zeros, expected) in cases {
            assert_eq!(rt; walk_one(rt.alloc(), form, entries, next, zeros)?, expected);
        }
    }
    Ok(())
}

#[test]
fn cut_to_a_length(rt: HostRuntime) -> Result<(), Fail> {
    for form in FORMS {
        let (wide, _) = form;
        let (header, whole) = if wide { (16, 76) } else { (8, 42) };
        let file = one_strip(rt.alloc(), form)?;
        assert_eq!(rt; file.len(), whole);
        for len in 4..whole + 1 {
            let expected = if len < header {
                Err((Rule::ShortHeader, 0, 0, 0))
            } else if len < whole - 4 {
                Err((Rule::DirectoryOut, header as u64, 0, 0))
            } else if len < whole {
                Err((Rule::RegionOut, if wide { 24 } else { 10 }, 0, 0))
            } else {
                Ok((1, 2, 1))
            };
            assert_eq!(rt; walk_front(rt.alloc(), file.as_slice(), len)?, expected);
        }
    }
    Ok(())
}

#[test]
fn many_directories(rt: HostRuntime) -> Result<(), Fail> {
    for form in FORMS {
        let (wide, _) = form;
        let last = if wide { 16_016 } else { 6_008 };
        assert_eq!(rt; walk_chain(rt.alloc(), form, 1_000)?, Ok((1_000, 0, 0)));
        assert_eq!(rt;
            walk_chain(rt.alloc(), form, 1_001)?,
            Err((Rule::TooManyDirectories, last, 0, 0))
        );
    }
    Ok(())
}

#[test]
fn many_entries(rt: HostRuntime) -> Result<(), Fail> {
    for form in FORMS {
        assert_eq!(rt; walk_long(rt.alloc(), form, 65_535)?, Ok((1, 65_535, 0)));
    }
    for big in [false, true] {
        assert_eq!(rt;
            walk_long(rt.alloc(), (true, big), 65_536)?,
            Err((Rule::DirectoryLong, 16, 65_536, 65_535))
        );
    }
    Ok(())
}

#[test]
fn entries_and_pictures(rt: HostRuntime) -> Result<(), Fail> {
    for form in FORMS {
        let (wide, big) = form;
        let (first, strip, value, long) = if wide {
            (24, 72, 36, 16)
        } else {
            (10, 38, 18, 4)
        };
        let file = one_strip(rt.alloc(), form)?;
        let dirs = Dirs::walk(rt.alloc(), file.as_slice())?;
        assert_eq!(rt; dirs.big(), big);
        assert_eq!(rt; dirs.directories(), 1);
        assert_eq!(rt; dirs.entries(0), 2);
        assert_eq!(rt; dirs.pictures(), 1);
        let span = |start: u64, end: u64| FileSpan { start, end };
        let entry = Entry {
            place: first,
            tag: 273,
            code: long,
            count: 1,
            value: span(value, value + if wide { 8 } else { 4 }),
        };
        assert_eq!(rt; dirs.entry(0, 0), entry);
        assert_eq!(rt; dirs.first_tag(273), Some(entry));
        assert_eq!(rt; dirs.picture(0), span(strip, strip + 4));
    }
    Ok(())
}

#[test]
fn reached_in_order(rt: HostRuntime) -> Result<(), Fail> {
    for form in FORMS {
        let (wide, _) = form;
        let (places, strip) = if wide {
            ([16, 208, 192, 176, 160], 224)
        } else {
            ([8, 104, 98, 92, 86], 110)
        };
        let file = branches(rt.alloc(), form)?;
        let dirs = Dirs::walk(rt.alloc(), file.as_slice())?;
        assert_eq!(rt; dirs.directories(), 5);
        for dir in 0..5 {
            assert_eq!(rt; dirs.at(dir), places[dir]);
        }
        assert_eq!(rt; dirs.pictures(), 1);
        let range = FileSpan {
            start: strip,
            end: strip + 4,
        };
        assert_eq!(rt; dirs.picture(0), range);
    }
    Ok(())
}

#[test]
fn pictures_past_an_empty_one(rt: HostRuntime) -> Result<(), Fail> {
    for form in FORMS {
        let (wide, _) = form;
        let places = if wide {
            [(160, 164), (164, 166), (166, 169)]
        } else {
            [(86, 90), (90, 92), (92, 95)]
        };
        let file = three_pictures(rt.alloc(), form)?;
        let dirs = Dirs::walk(rt.alloc(), file.as_slice())?;
        assert_eq!(rt; dirs.pictures(), 3);
        for i in 0..3 {
            let (start, end) = places[i];
            assert_eq!(rt; dirs.picture(i), FileSpan { start, end });
        }
    }
    Ok(())
}

#[test]
fn tables_that_meet(rt: HostRuntime) -> Result<(), Fail> {
    let ranges = [(20, 23), (3, 7), (10, 14), (20, 25)];
    for form in FORMS {
        let file = meeting_tables(rt.alloc(), form)?;
        let dirs = Dirs::walk(rt.alloc(), file.as_slice())?;
        assert_eq!(rt; dirs.pictures(), 4);
        for i in 0..4 {
            let (start, end) = ranges[i];
            assert_eq!(rt; dirs.picture(i), FileSpan { start, end });
        }
    }
    Ok(())
}
