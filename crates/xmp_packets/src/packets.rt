//! A payload as a packet:
//! `<?xpacket begin=..?>` | XMP | padding | `<?xpacket end="w"?>` | zero bytes, which are no text.
ghost use Rattle.std.specs.Prelude.{◌≡◌, ◌==◌, ◌≤◌, length};
ghost use Rattle.std.specs.List.{suffix_len};
ghost use Rattle.xmp_values.specs.Characters.{is_blank};
ghost use Rattle.xmp_packets.specs.Packets.{without_end, packet_text, is_packet_for_writing, is_writable};

use xmp_values::is_blank_byte;

/// What a payload holds as a packet.
#[derive(Clone, Copy, Debug, PartialEq, Eq)]
pub struct PacketInfo {
    /// Whether the packet may be written in its place.
    pub writable: bool,
    /// The length of the text, in bytes: that of the payload without the zero bytes at its end.
    pub text_len: usize,
}

/// The packet of a payload (ISO 16684-1, 7.3.2).
pub struct Packet;

impl Packet {
    /// What a payload holds. It takes no memory.
    pub fn of(payload: &[u8]) -> PacketInfo
        ensures writable { result.writable ≡ is_writable payload.now }
        ensures text { result.text_len ≡ length (packet_text payload.now) }
    {
        let text = packet_text(payload);
        PacketInfo {
            writable: is_packet_for_writing(text),
            text_len: text.len(),
        }
    }
}

/// How many zero bytes stand at the end.
fn trailing_zeros(payload: &[u8]) -> usize
    ensures count { result ≡ suffix_len (λ byte. byte == 0) payload.now }
    ensures within { result ≤ length payload.now }
{
    payload.iter().rev().take_while(|byte| **byte == 0).count()
}

/// The payload without the zero bytes at its end.
fn packet_text(payload: &[u8]) -> &[u8]
    ensures { result.now ≡ packet_text payload.now }
{
    &payload[..payload.len() - trailing_zeros(payload)]
}

/// How many bytes of white space stand at the end.
fn trailing_blanks(text: &[u8]) -> usize
    ensures count { result ≡ suffix_len is_blank text.now }
    ensures within { result ≤ length text.now }
{
    text.iter()
        .rev()
        .take_while(|byte| is_blank_byte(**byte))
        .count()
}

/// The text without the white space at its end.
fn without_blank_end(text: &[u8]) -> &[u8]
    ensures { result.now ≡ without_end is_blank text.now }
{
    &text[..text.len() - trailing_blanks(text)]
}

/// Whether the text is that of a packet that may be written.
fn is_packet_for_writing(text: &[u8]) -> bool
    ensures { result ≡ is_packet_for_writing text.now }
{
    let body = without_blank_end(text);
    let ends = body.ends_with(b"<?xpacket end=\"w\"?>") || body.ends_with(b"<?xpacket end='w'?>");
    text.starts_with(b"<?xpacket begin=") && ends
}
