//! What a marker asks for.
ghost use Rattle.std.specs.Prelude.{◌≡◌};
ghost use Rattle.jpeg_regions.specs.Markers.{class_of};

/// What stands after the second byte of a marker.
#[derive(Clone, Copy, Debug, PartialEq, Eq)]
pub enum Class {
    /// The byte is no marker yet: more FF bytes may come.
    Fill,
    /// No marker that can stand between regions.
    Refused,
    /// Nothing.
    Single,
    /// All that follows in the file.
    Last,
    /// A length that counts itself, and a payload.
    Sized,
}

pub fn class_of(marker: u8) -> Class
    ensures { result ≡ class_of marker }
{
    match marker {
        0xff => Class::Fill,
        0x00 | 0xd8 => Class::Refused,
        0x01 | 0xd0..=0xd7 => Class::Single,
        0xd9 | 0xda => Class::Last,
        _ => Class::Sized,
    }
}
