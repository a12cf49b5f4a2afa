//! What a region is to metadata.
ghost use Rattle.std.specs.Prelude.{◌≡◌};
ghost use Rattle.std.specs.List.{list_all};
ghost use Rattle.xmp_values.specs.Digits.{is_digit};
ghost use Rattle.jpeg_regions.specs.Kinds.{kind_of, first_kind_of, is_portion, front_len};

use xmp_values::is_hex_digit;

/// The kinds of regions, by the marker and the beginning of the payload.
#[derive(Clone, Copy, Debug, PartialEq, Eq)]
pub enum RegionKind {
    /// The main XMP packet.
    Main,
    /// A portion of an extended XMP text.
    Portion,
    /// Exif data.
    Exif,
    /// Photoshop image resources.
    Resources,
    /// The index of a multi-picture file.
    Mpf,
    /// An APP0 segment, as that of JFIF.
    App0,
    /// Any other segment.
    Other,
    /// A marker without length.
    Alone,
    /// From the first scan, or the end of the image, to the file's end.
    Tail,
}

const PACKET: &[u8] = b"http://ns.adobe.com/xap/1.0/\0";

const EXTENSION: &[u8] = b"http://ns.adobe.com/xmp/extension/\0";

const EXIF: &[u8] = b"Exif\0";

const RESOURCES: &[u8] = b"Photoshop 3.0\0";

const MULTI_PICTURE: &[u8] = b"MPF\0";

/// How many bytes of the payload tell the kind.
pub fn front_len(marker: u8) -> u8
    ensures { result ≡ front_len marker }
{
    match marker {
        0xe1 => 75,
        0xe2 => 4,
        0xed => 14,
        _ => 0,
    }
}

/// The kind of a segment with a length, by its payload or by the bytes of it that tell the kind.
pub fn kind_of(marker: u8, payload: &[u8]) -> RegionKind
    ensures { result ≡ kind_of marker payload.now }
{
    match marker {
        0xe0 => RegionKind::App0,
        0xe1 => first_kind_of(payload),
        0xe2 if payload.starts_with(MULTI_PICTURE) => RegionKind::Mpf,
        0xed if payload.starts_with(RESOURCES) => RegionKind::Resources,
        _ => RegionKind::Other,
    }
}

/// The kind of an APP1 segment.
fn first_kind_of(payload: &[u8]) -> RegionKind
    ensures { result ≡ first_kind_of payload.now }
{
    if payload.starts_with(PACKET) {
        RegionKind::Main
    } else if is_portion(payload) {
        RegionKind::Portion
    } else if payload.len() > EXIF.len() && payload.starts_with(EXIF) {
        RegionKind::Exif
    } else {
        RegionKind::Other
    }
}

/// The signature, 32 hexadecimal digits, and two numbers of 32 bits.
fn is_portion(payload: &[u8]) -> bool
    ensures { result ≡ is_portion payload.now }
{
    payload.len() >= 75 && payload.starts_with(EXTENSION) && are_digits(&payload[35..67])
}

fn are_digits(bytes: &[u8]) -> bool
    ensures { result ≡ list_all is_digit bytes.now }
{
    bytes.iter().all(|byte| is_hex_digit(*byte))
}
