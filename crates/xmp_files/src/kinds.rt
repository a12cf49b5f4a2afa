//! Which kind a file is.
ghost use Rattle.std.specs.Prelude.{◌≡◌, drop};
ghost use Rattle.xmp_files.specs.Kinds.{kind_of, kind_of_head, is_tiff, is_big_tiff, has_long_offsets, is_webp, is_psd, is_sidecar, is_utf16, is_markup, without_mark};

use xmp_values::leading_blanks;

/// The kinds of files, by their first bytes.
#[derive(Clone, Copy, Debug, PartialEq, Eq)]
pub enum Kind {
    /// A JPEG file (ISO 10918-1).
    Jpeg,
    /// A classic TIFF file (TIFF 6.0).
    Tiff,
    /// A TIFF file with offsets of 64 bits.
    BigTiff,
    /// A WebP file.
    WebP,
    /// A Photoshop file, PSD or PSB.
    Psd,
    /// A text of XML, which is a packet of its own.
    Sidecar,
}

/// How many bytes at a file's beginning tell its kind.
pub const HEAD_LEN: usize = 16;

/// The kind of a file, by its first 16 bytes or by all of a shorter one. Bytes after these, which
/// may be given too, don't count. None where the bytes begin no kind.
pub fn kind_of(head: &[u8]) -> Option<Kind>
    ensures { result ≡ kind_of head.now }
{
    kind_of_head(&head[..head.len().min(HEAD_LEN)])
}

fn kind_of_head(head: &[u8]) -> Option<Kind>
    ensures { result ≡ kind_of_head head.now }
{
    if head.starts_with(&[0xff, 0xd8]) {
        Some(Kind::Jpeg)
    } else if is_tiff(head) {
        Some(Kind::Tiff)
    } else if is_big_tiff(head) {
        Some(Kind::BigTiff)
    } else if is_webp(head) {
        Some(Kind::WebP)
    } else if is_psd(head) {
        Some(Kind::Psd)
    } else if is_sidecar(head) {
        Some(Kind::Sidecar)
    } else {
        None
    }
}

fn is_tiff(head: &[u8]) -> bool
    ensures { result ≡ is_tiff head.now }
{
    head.starts_with(b"II\x2a\x00") || head.starts_with(b"MM\x00\x2a")
}

fn is_big_tiff(head: &[u8]) -> bool
    ensures { result ≡ is_big_tiff head.now }
{
    head.starts_with(b"II\x2b\x00") || head.starts_with(b"MM\x00\x2b")
}

/// A BigTIFF file whose offsets have 8 bytes, as it says after its number.
pub fn has_long_offsets(head: &[u8]) -> bool
    ensures { result ≡ has_long_offsets head.now }
{
    head.starts_with(b"II\x2b\x00\x08\x00\x00\x00")
        || head.starts_with(b"MM\x00\x2b\x00\x08\x00\x00")
}

/// A RIFF file whose form, after its size, is WebP.
fn is_webp(head: &[u8]) -> bool
    ensures { result ≡ is_webp head.now }
{
    head.starts_with(b"RIFF") && after(head, 8).starts_with(b"WEBP")
}

/// What stands after the first `count` bytes, of which there may be fewer.
fn after(head: &[u8], count: usize) -> &[u8]
    ensures { result.now ≡ drop count head.now }
{
    &head[count.min(head.len())..]
}

/// Version 1, or version 2 for large documents.
fn is_psd(head: &[u8]) -> bool
    ensures { result ≡ is_psd head.now }
{
    head.starts_with(b"8BPS\x00\x01") || head.starts_with(b"8BPS\x00\x02")
}

/// A text of XML: in UTF-16, which is refused later, or one whose markup has begun.
fn is_sidecar(head: &[u8]) -> bool
    ensures { result ≡ is_sidecar head.now }
{
    is_utf16(head) || is_markup(without_mark(head))
}

fn is_utf16(head: &[u8]) -> bool
    ensures { result ≡ is_utf16 head.now }
{
    head.starts_with(&[0xfe, 0xff]) || head.starts_with(&[0xff, 0xfe])
}

/// The text after a byte order mark, if it begins with one.
fn without_mark(head: &[u8]) -> &[u8]
    ensures { result.now ≡ without_mark head.now }
{
    if head.starts_with(&[0xef, 0xbb, 0xbf]) {
        &head[3..]
    } else {
        head
    }
}

/// Whether `<` stands after any white space.
fn is_markup(text: &[u8]) -> bool
    ensures { result ≡ is_markup text.now }
{
    text[leading_blanks(text)..].starts_with(b"<")
}
