//! What is kept of a file that was read.
ghost use Rattle.std.specs.Prelude.{◌≡◌};
ghost use Rattle.std.specs.Option.{option_copied, option_map};
ghost use Rattle.jpeg_regions.specs.Jpeg.{Region};
ghost use Rattle.xmp_packets.specs.Packets.{packet_text};
ghost use Rattle.xmp_files.specs.Keeping.{sidecar, photograph, image, regions_in, directories_in};
ghost use Rattle.xmp_files.specs.Helds.{piece_of};
ghost use Rattle.xmp_files.specs.Plans.{place_of, room_of};
ghost use Rattle.xmp_files.specs.Planneds.{bytes_in};

use jpeg_regions::Regions;
use std::marker::Model;
use tiff_dirs::Dirs;
use xmp_base::FileSpan;
use xmp_packets::Packet;
use xmp_values::Bytes;

/// What of a file is asked for.
#[derive(Clone, Copy, Debug, PartialEq, Eq)]
pub enum Need {
    /// The packet alone.
    Packet,
    /// The blocks of other metadata too.
    Blocks,
}

/// The main packet of a JPEG or TIFF file, and the place where it stands.
#[derive(Debug, Drop)]
pub struct MainPacket {
    pub at: u64,
    pub bytes: Bytes,
}

/// What the portions of an extended text give.
#[derive(Debug, Drop)]
pub enum Extended {
    /// The text that they join to.
    Joined(Bytes),
    /// The first of them says this length of the whole, which is over the limit.
    TooLong(u64),
    /// They tile the text up to this place alone, or differ in its length.
    Gap(u64),
}

/// The extended text of a JPEG file.
#[derive(Debug, Drop)]
pub struct ExtendedText {
    /// Where the payloads of its portions stand, in the order of the file.
    pub portions: Vec<FileSpan>,
    /// What they give; nothing without a portion.
    pub joined: Option<Extended>,
}

/// How a file is made up, with what is kept of it.
#[derive(Drop)]
pub enum Contents {
    /// A file that is nothing but its packet.
    Sidecar(Bytes),
    /// The length of a JPEG file, its regions, its main packet, and its extended text.
    Photograph(u64, Regions, Option<MainPacket>, ExtendedText),
    /// The length of a TIFF or BigTIFF file, its directories, and its main packet.
    Image(u64, Dirs, Option<MainPacket>),
}

/// What is kept of a file. Contracts see its kind, its length, its payload with its place, how it
/// is made up, and what it has of portions and blocks.
#[derive(Drop)]
pub struct Held {
    need: Need,
    contents: Contents,
}

impl Model for Held {
    ghost use Rattle.xmp_files.specs.Keeping.{Kept};
    ghost use Rattle.xmp_files.specs.Helds.{kept_of};

    ghost Value = { Kept };

    ghost view = { λ h. kept_of h.need h.contents };
}

impl Held {
    /// What is kept of a sidecar of these bytes.
    pub(crate) fn sidecar(need: Need, bytes: Bytes) -> Held
        ensures { result ≡ sidecar need bytes }
    {
        Held {
            need,
            contents: Contents::Sidecar(bytes),
        }
    }

    /// What is kept of a JPEG file of `size` bytes.
    pub(crate) fn photograph(
        need: Need,
        size: u64,
        regions: Regions,
        packet: Option<MainPacket>,
        text: ExtendedText,
    ) -> Held
        ensures { result ≡ photograph need size regions (option_map piece_of packet) text.portions.items text.joined }
    {
        Held {
            need,
            contents: Contents::Photograph(size, regions, packet, text),
        }
    }

    /// What is kept of a TIFF or BigTIFF file of `size` bytes.
    pub(crate) fn image(need: Need, size: u64, dirs: Dirs, packet: Option<MainPacket>) -> Held
        ensures { result ≡ image need size dirs (option_map piece_of packet) }
    {
        Held {
            need,
            contents: Contents::Image(size, dirs, packet),
        }
    }

    /// What the portions of an extended text give, if there are any.
    pub(crate) fn extended(&self) -> Option<&Extended>
        ensures { option_copied result ≡ self.now.extended }
    {
        match &self.contents {
            Contents::Sidecar(_) | Contents::Image(..) => None,
            Contents::Photograph(_, _, _, text) => text.joined.as_ref(),
        }
    }

    /// The regions of a JPEG file; none of another.
    pub(crate) fn regions(&self) -> Option<&Regions>
        ensures { option_copied result ≡ regions_in self.now.container }
    {
        match &self.contents {
            Contents::Sidecar(_) | Contents::Image(..) => None,
            Contents::Photograph(_, regions, _, _) => Some(regions),
        }
    }

    /// The directories of a TIFF file; none of another.
    pub(crate) fn directories(&self) -> Option<&Dirs>
        ensures { option_copied result ≡ directories_in self.now.container }
    {
        match &self.contents {
            Contents::Sidecar(_) | Contents::Photograph(..) => None,
            Contents::Image(_, dirs, _) => Some(dirs),
        }
    }

    /// Where the payloads of the portions of the extended text stand, in the order of the file.
    pub(crate) fn portions(&self) -> &[FileSpan]
        ensures { result.now ≡ self.now.portions }
    {
        match &self.contents {
            Contents::Sidecar(_) | Contents::Image(..) => &[],
            Contents::Photograph(_, _, _, text) => text.portions.as_slice(),
        }
    }

    /// The payload of the main packet, if there is one.
    pub fn payload(&self) -> Option<&[u8]>
        ensures { option_copied result ≡ option_map (λ piece. piece.bytes) self.now.payload }
    {
        match &self.contents {
            Contents::Sidecar(bytes) => Some(bytes.as_slice()),
            Contents::Photograph(_, _, Some(part), _) => Some(part.bytes.as_slice()),
            Contents::Photograph(_, _, None, _) => None,
            Contents::Image(_, _, Some(part)) => Some(part.bytes.as_slice()),
            Contents::Image(_, _, None) => None,
        }
    }

    /// Where the payload of the main packet stands, 0 without one.
    pub(crate) fn payload_place(&self) -> u64
        ensures { result ≡ place_of self.now.payload }
    {
        match &self.contents {
            Contents::Photograph(_, _, Some(part), _) => part.at,
            Contents::Image(_, _, Some(part)) => part.at,
            _ => 0,
        }
    }

    /// The length of the payload of the main packet, 0 without one.
    pub(crate) fn payload_len(&self) -> usize
        ensures { result ≡ room_of self.now.payload }
    {
        match &self.contents {
            Contents::Sidecar(bytes) => bytes.len(),
            Contents::Photograph(_, _, Some(part), _) => part.bytes.len(),
            Contents::Photograph(_, _, None, _) => 0,
            Contents::Image(_, _, Some(part)) => part.bytes.len(),
            Contents::Image(_, _, None) => 0,
        }
    }

    /// The length of the file.
    pub fn size(&self) -> u64
        ensures { result ≡ self.now.size }
    {
        match &self.contents {
            Contents::Sidecar(bytes) => bytes.len() as u64,
            Contents::Photograph(size, ..) | Contents::Image(size, ..) => *size,
        }
    }

    /// The bytes of the main packet, none without one.
    pub(crate) fn packet(&self) -> &[u8]
        ensures { result.now ≡ bytes_in self.now.payload }
    {
        match &self.contents {
            Contents::Sidecar(bytes) => bytes.as_slice(),
            Contents::Photograph(_, _, Some(part), _) => part.bytes.as_slice(),
            Contents::Photograph(_, _, None, _) => &[],
            Contents::Image(_, _, Some(part)) => part.bytes.as_slice(),
            Contents::Image(_, _, None) => &[],
        }
    }

    /// The main packet's text: the payload without the zero bytes at its end.
    pub fn text(&self) -> Option<&[u8]>
        ensures { option_copied result ≡ option_map (λ piece. packet_text piece.bytes) self.now.payload }
    {
        match self.payload() {
            Some(payload) => Some(&payload[..Packet::of(payload).text_len]),
            None => None,
        }
    }
}
