//! Packets, keyrings and signed literals.

use crate::lines;
use opgp_bound::{keep_bound, keep_newest};
use opgp_codec::{Mode, Out, PacketsAnswer, Watched, read_packets, read_signatures};
use opgp_frame::{Packet, Placed, write_packet};
use opgp_keyring::{
    BlockOf, Composed, Keyring, check_bodies, compose, compose_signed, end_fits, flatten,
};
use opgp_octets::{Limits, Malformed};
use opgp_report::Verdict;
use std::alloc::Global;

/// Adds what a call makes of packets; None also where there is no call of the name.
pub(crate) fn add_made(alloc: Global, name: &str, octets: &[u8], out: &mut Vec<u8>) -> Option<()> {
    match name {
        "blocks" => add_blocks(alloc, &blocks_of(alloc, octets)?, out),
        "bodies" => are_whole(&blocks_of(alloc, octets)?),
        "shown" => lines::add_shown(alloc, &blocks_of(alloc, octets)?, out),
        "signed" => add_signed(alloc, blocks_of(alloc, octets)?, out),
        "signatures" => add_signatures(alloc, octets, out),
        "ring" => add_ring(alloc, &ring_of(alloc, octets)?, out),
        "bound" => add_bound(alloc, ring_of(alloc, octets)?, out),
        "newest" => add_newest(alloc, ring_of(alloc, octets)?, out),
        "binary" => lines::add_certificates(alloc, &ring_of(alloc, octets)?, Out::Binary, out),
        "armored" => lines::add_certificates(alloc, &ring_of(alloc, octets)?, Out::Armor, out),
        "listing" => lines::add_listing(alloc, &ring_of(alloc, octets)?, out),
        "check" => lines::add_rows(alloc, &ring_of(alloc, octets)?, out),
        _ => None,
    }
}

/// The usual limits, but that malformed signatures are kept.
fn limits() -> Limits {
    Limits::usual().with_malformed(Malformed::Keep)
}

/// The blocks of octets.
fn blocks_of(alloc: Global, octets: &[u8]) -> Option<Vec<BlockOf>> {
    match read_packets(alloc, &mut Watched::new(octets), Mode::Auto, &limits()).ok()? {
        PacketsAnswer::Packets(blocks) => Some(blocks),
        PacketsAnswer::Refused(_) => None,
    }
}

/// The keyring of octets.
fn ring_of(alloc: Global, octets: &[u8]) -> Option<Keyring> {
    match compose(alloc, blocks_of(alloc, octets)?, &limits()).ok()? {
        Composed::Ring(ring) => Some(ring),
        Composed::Refused(_) => None,
    }
}

/// Nothing, if no body has a fault.
fn are_whole(blocks: &[BlockOf]) -> Option<()> {
    match check_bodies(blocks) {
        Some(_) => None,
        None => Some(()),
    }
}

/// The packets of copies of blocks.
fn add_blocks(alloc: Global, blocks: &[BlockOf], out: &mut Vec<u8>) -> Option<()> {
    for block in blocks {
        add_placed(&block.copy(alloc).ok()?.packets, out)?;
    }
    Some(())
}

/// Packets at their places.
fn add_placed(packets: &[Placed], out: &mut Vec<u8>) -> Option<()> {
    for placed in packets {
        write_packet(&placed.packet, out).ok()?;
    }
    Some(())
}

/// Packets.
fn add_packets(packets: &[Packet], out: &mut Vec<u8>) -> Option<()> {
    for packet in packets {
        write_packet(packet, out).ok()?;
    }
    Some(())
}

/// The packets of a copy of the signed literal of blocks.
fn add_signed(alloc: Global, blocks: Vec<BlockOf>, out: &mut Vec<u8>) -> Option<()> {
    if !end_fits(&blocks) {
        return None;
    }
    let literal = compose_signed(alloc, blocks).ok()?.ok()?;
    add_packets(&literal.copy(alloc).ok()?.into_packets(), out)
}

/// The packets of a copy of detached signatures.
fn add_signatures(alloc: Global, octets: &[u8], out: &mut Vec<u8>) -> Option<()> {
    let signatures = read_signatures(alloc, &mut Watched::new(octets), Mode::Auto, &limits()).ok()?;
    add_packets(signatures.copy(alloc).ok()?.flat(), out)
}

/// The packets of a keyring.
fn add_ring(alloc: Global, ring: &Keyring, out: &mut Vec<u8>) -> Option<()> {
    add_packets(&flatten(alloc, ring).ok()?, out)
}

/// What stays of a keyring whose first signature is good; of the others nothing is known.
fn add_bound(alloc: Global, ring: Keyring, out: &mut Vec<u8>) -> Option<()> {
    add_ring(alloc, &keep_bound(alloc, ring, &[Verdict::Good]).ok()?, out)
}

/// What newer self-signatures leave of a keyring in 2033, whose first three signatures are good; and
/// a letter for each verdict that is left of these.
fn add_newest(alloc: Global, ring: Keyring, out: &mut Vec<u8>) -> Option<()> {
    let good = [Verdict::Good, Verdict::Good, Verdict::Good];
    let (newest, founds) = keep_newest(alloc, ring, &good, 2_000_000_000).ok()?;
    add_ring(alloc, &newest, out)?;
    for _ in &founds {
        out.push(b'v').ok()?;
    }
    Some(())
}
