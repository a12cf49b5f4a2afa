//! Packets.
use super::*;
use std::test::Fail;

/// Payloads, whether each may be written in its place, and how many zero bytes its text leaves out.
const PAYLOADS: [(&str, bool, usize); 13] = [
    (
        "<?xpacket begin=\"\u{FEFF}\" id=\"W5M0MpCehiHzreSzNTczkc9d\"?>\n<a/>\n<?xpacket end=\"w\"?>",
        true,
        0,
    ),
    (
        "<?xpacket begin='' id='W5M0MpCehiHzreSzNTczkc9d'?><a/><?xpacket end='w'?>",
        true,
        0,
    ),
    (
        "<?xpacket begin=\"\"?><a/><?xpacket end=\"w\"?> \t\r\n\0\0",
        true,
        2,
    ),
    (
        "<?xpacket begin=\"\"?><a/><?xpacket end=\"w\"?>\0\n",
        false,
        0,
    ),
    ("<?xpacket begin=\"\"?><a/><?xpacket end=\"r\"?>", false, 0),
    ("<?xpacket begin=\"\"?><a/><?xpacket end=\"w'?>", false, 0),
    (
        "<?xpacket begin=\"\"?><a/><?xpacket end=\"w\"?>\u{A0}",
        false,
        0,
    ),
    ("<?xpacket begin=\"\"?><a/>", false, 0),
    (" <?xpacket begin=\"\"?><a/><?xpacket end=\"w\"?>", false, 0),
    ("<a/><?xpacket end=\"w\"?>", false, 0),
    ("<a/>\0", false, 1),
    ("", false, 0),
    ("\0\0\0", false, 3),
];

/// Whether a payload is written in its place as said, and its text leaves out as many zero bytes.
fn is_packet_as_said(payload: &[u8], writable: bool, zeros: usize) -> bool {
    let info = Packet::of(payload);
    info.writable == writable && payload.len().checked_sub(zeros) == Some(info.text_len)
}

#[test]
fn payloads_are_told_apart(rt: HostRuntime) -> Result<(), Fail> {
    for (payload, writable, zeros) in PAYLOADS {
        assert!(rt;
            is_packet_as_said(payload.as_bytes(), writable, zeros),
            "{payload}"
        );
    }
    Ok(())
}
