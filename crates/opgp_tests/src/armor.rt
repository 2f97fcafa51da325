//! What a reader of armor uses again.

use opgp_armor::{ArmorEvent, Dearmor};
use opgp_octets::Limits;
use std::alloc::Global;

/// The octets of a line; None if it has none, or if memory runs out.
fn octets_of(reader: &mut Dearmor, line: &[u8]) -> Option<Vec<u8>> {
    if reader.ready() || reader.ended() || reader.given() > 1 << 40 || line.len() > 1 << 40 {
        return None;
    }
    if reader.push(line).is_err() {
        return None;
    }
    match reader.take() {
        Some(ArmorEvent::Octets(octets)) => Some(octets),
        _ => None,
    }
}

/// A reader of the data lines of a block.
fn within_block(alloc: Global) -> Dearmor {
    let mut reader = Dearmor::new(alloc, Limits::usual());
    let _begin = octets_of(&mut reader, b"-----BEGIN PGP MESSAGE-----\n");
    let _blank = octets_of(&mut reader, b"\n");
    reader
}

// Lines whose vectors are given back take the memory of one.
#[test]
fn lines_in_1_growths(rt: HostRuntime) {
    let mut reader = within_block(rt.alloc());
    for _ in 0..100 {
        match octets_of(&mut reader, b"AAECAwQF\n") {
            Some(octets) => {
                assert_eq!(rt; octets.as_slice(), [0, 1, 2, 3, 4, 5].as_slice());
                reader.reuse(octets);
            }
            None => return,
        }
    }
}

/// The capacity of the vector that has the octets of a line, where one of this capacity was given
/// back before, which held something else.
fn capacity_behind(alloc: Global, capacity: usize) -> Option<usize> {
    let mut reader = within_block(alloc);
    let mut full = Vec::with_capacity(alloc, capacity).ok()?;
    full.push(b'.').ok()?;
    reader.reuse(full);
    let octets = octets_of(&mut reader, b"AAEC\n")?;
    if octets.as_slice() == [0, 1, 2].as_slice() {
        Some(octets.capacity())
    } else {
        None
    }
}

// A vector that was given back is that of the next octets, with none of what it held; but not one
// that has room for more than twice the octets of a line.
#[test]
fn vectors_given_back(rt: HostRuntime) {
    let most = 2 * Limits::usual().line() as usize;
    assert_eq!(rt; capacity_behind(rt.alloc(), most), Some(most));
    match capacity_behind(rt.alloc(), most + 1) {
        Some(capacity) => assert!(rt; capacity < most),
        None => panic!(rt; "no octets"),
    }
}
