//! How many allocations are made of packets, and how much room they take.

use opgp_codec::{EngineError, Mode, PacketsAnswer, Watched, read_packets};
use opgp_frame::{Deframe, Form, Packet, Placed};
use opgp_keyring::{Composer, Ready};
use opgp_octets::Limits;
use std::alloc::Global;
use std::test::Fail;

// The packets of a key, that of RFC 9580, A.1, a user ID, and a signature by EdDSA, of empty areas
// and integers of no octets.
const PACKETS: [&[u8]; 3] = [
    b"\xC6\x33\x04\x53\xF3\x5F\x0B\x16\x09\x2B\x06\x01\x04\x01\xDA\x47\x0F\x01\x01\x07\x40\x3F\
      \x09\x89\x94\xBD\xD9\x16\xED\x40\x53\x19\x79\x34\xE4\xA8\x7C\x80\x73\x3A\x12\x80\xD6\x2F\
      \x80\x10\x99\x2E\x43\xEE\x3B\x24\x06",
    b"\xCD\x01a",
    b"\xC2\x0E\x04\x13\x16\x08\x00\x00\x00\x00\xAB\xCD\x00\x00\x00\x00",
];

/// Whether the packets are a certificate of three.
fn is_whole(composer: Composer) -> bool {
    if composer.ready() {
        return false;
    }
    match composer.finish() {
        Ok(Some(Ready::Certificate(certificate))) => certificate.packets().len() == 3,
        _ => false,
    }
}

/// Pushes a packet that has a body of its own; None where memory runs out.
fn push_owned(alloc: Global, composer: &mut Composer, octets: &[u8]) -> Option<()> {
    let [tag, _, body @ ..] = octets else {
        return None;
    };
    let packet = Packet::new(Form::NewOne, tag & 63, body.to_vec(alloc).ok()?)?;
    if composer.ready() {
        return None;
    }
    composer
        .push(Placed {
            packet,
            block: 0,
            pos: 0,
        })
        .ok()
}

// One allocation makes each body, two the octets that the certificate keeps, as they become more,
// and one the places of its packets: none is made for a packet or a component.
#[test]
fn composing_keeps_octets_in_6_growths(rt: HostRuntime) {
    let mut composer = Composer::new(rt.alloc(), Limits::usual());
    for octets in PACKETS {
        if push_owned(rt.alloc(), &mut composer, octets).is_none() {
            return;
        }
    }
    assert!(rt; is_whole(composer));
}

/// Pushes a packet that is lent from its octets; None where memory runs out.
fn push_lent(deframe: &mut Deframe, composer: &mut Composer, octets: &[u8]) -> Option<()> {
    if deframe.ready() || composer.ready() || deframe.given() > 1 << 40 || octets.len() > 1 << 40 {
        return None;
    }
    let (_, spot) = deframe.find(octets)?;
    composer.push_view(spot.lend(octets)).ok()
}

// What is lent is copied into the certificate, and takes no memory of its own.
#[test]
fn lent_packets_are_kept_in_3_growths(rt: HostRuntime) {
    let mut deframe = Deframe::new(rt.alloc(), 0, Limits::usual());
    let mut composer = Composer::new(rt.alloc(), Limits::usual());
    for octets in PACKETS {
        if push_lent(&mut deframe, &mut composer, octets).is_none() {
            return;
        }
    }
    assert!(rt; is_whole(composer));
}

/// Nine blocks, each of one packet that has no octets.
const NINE_BLOCKS: &[u8] = b"-----BEGIN PGP MESSAGE-----\n\n6AA=\n-----END PGP MESSAGE-----\n\
    -----BEGIN PGP MESSAGE-----\n\n6AA=\n-----END PGP MESSAGE-----\n\
    -----BEGIN PGP MESSAGE-----\n\n6AA=\n-----END PGP MESSAGE-----\n\
    -----BEGIN PGP MESSAGE-----\n\n6AA=\n-----END PGP MESSAGE-----\n\
    -----BEGIN PGP MESSAGE-----\n\n6AA=\n-----END PGP MESSAGE-----\n\
    -----BEGIN PGP MESSAGE-----\n\n6AA=\n-----END PGP MESSAGE-----\n\
    -----BEGIN PGP MESSAGE-----\n\n6AA=\n-----END PGP MESSAGE-----\n\
    -----BEGIN PGP MESSAGE-----\n\n6AA=\n-----END PGP MESSAGE-----\n\
    -----BEGIN PGP MESSAGE-----\n\n6AA=\n-----END PGP MESSAGE-----\n";

// The list of blocks grows from 4 to 8 and 16; each block takes a growth, the octets of their lines
// two, and a reader one more.
#[test]
fn nine_blocks_in_15_growths(rt: HostRuntime) {
    let mut source = Watched::new(NINE_BLOCKS);
    match read_packets(rt.alloc(), &mut source, Mode::Armor, &Limits::usual()) {
        Ok(answer) => {
            assert!(rt; matches!(&answer, PacketsAnswer::Packets(blocks) if blocks.len() == 9))
        }
        Err(error) => assert!(rt; matches!(error, EngineError::Memory)),
    }
}

/// The room that the body of a packet has, whose octets are taken in pieces of so many.
fn room_of(alloc: Global, octets: &[u8], size: usize) -> Result<usize, Fail> {
    let mut deframe = Deframe::new(alloc, 0, Limits::usual());
    for piece in octets.chunks(size.max(1)) {
        if deframe.ready() || deframe.given() > 1 << 40 || piece.len() > 1 << 40 {
            return Err("not read on".into());
        }
        deframe.push(piece)?;
    }
    match deframe.take() {
        Some(placed) => Ok(placed.packet.into_parts().2.capacity()),
        None => Err("no packet".into()),
    }
}

#[test]
fn bodies_take_no_more_room_than_they_have(rt: HostRuntime) -> Result<(), Fail> {
    let mut octets = Vec::from_slice(rt.alloc(), b"\xCD\xFF\x00\x00\x27\x10")?;
    octets.resize(10_006, 0x61)?;
    for size in [48, 4_096, 65_536] {
        assert_eq!(rt; room_of(rt.alloc(), &octets, size)?, 10_000);
    }
    Ok(())
}
