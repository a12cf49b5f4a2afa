use crate::exchange_packet;
use std::alloc::Global;
use xmp_base::{Desk, MemoryDesk};

/// Exchanges the packet in a file where each write moves one byte and the desk's call of this number
/// fails, and tells whether the file then holds these bytes.
fn leaves(alloc: Global, call: u64, expected: &[u8]) -> bool {
    let mut desk = MemoryDesk::new(alloc);
    if desk.add("photo.jpg", b"head<?old text?>tail").is_err() || desk.fail(call).is_err() {
        return false;
    }
    desk.cut(1);
    exchange_in(&mut desk);
    desk.bytes_of("photo.jpg") == Some(expected)
}

fn exchange_in<D: Desk>(desk: &mut D) -> bool {
    match desk.size("photo.jpg") {
        Ok(size) => size >= 20
            && exchange_packet(desk, "photo.jpg", 4, b"<?old text?>", b"<?old pack?>").is_ok(),
        Err(_) => false,
    }
}

/// The first call sizes the file, the second closes the packet, then come the six bytes from the first
/// difference on, and the ninth opens it again. A failing write puts half of its piece.
#[test]
fn a_failed_exchange_leaves_the_old_packet_the_new_one_or_a_closed_one(rt: HostRuntime) {
    for (call, expected) in [
        (2, "head<?old text?>tail"),
        (3, "head ?old pact?>tail"),
        (5, "head ?old pack?>tail"),
        (9, "head ?old pack?>tail"),
        (10, "head<?old pack?>tail"),
    ] {
        assert!(rt; leaves(rt.alloc(), call, expected.as_bytes()));
    }
}
