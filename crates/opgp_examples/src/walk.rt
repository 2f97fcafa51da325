//! Walks an armored text: blocks, packets, keys, signatures and their hashed subpackets.

ghost use Rattle.std.specs.Prelude.{◌≡◌, option_map};
ghost use Rattle.opgp.specs.Packet.Subs.{subs_to_come};
ghost use Rattle.opgp_examples.specs.Hashed.{hashed_subs};

use anyhow::Result;
use opgp::armor::dearmor;
use opgp::frame::{Deframe, Placed};
use opgp::hash::fingerprint;
use opgp::octets::{HashAlgorithm, KeyAlgorithm, Limits, PacketType, SignatureType, SubpacketKind};
use opgp::packet::{Key, SigView, Signature, SubMeaning, SubView, Subs};

/// The armored blocks of a text, or its fault and no block.
pub(crate) fn walk(rt: &(impl Print + AllocGlobal), text: &[u8]) -> Result<()> {
    let blocks = dearmor(rt.alloc(), text, &Limits::usual())??;
    for (number, block) in blocks.iter().enumerate() {
        println!(rt; "block {number}")?;
        walk_block(rt, number as u64, &block.octets)?;
    }
    Ok(())
}

/// The packets of a block. Those before a fault are shown.
fn walk_block(rt: &(impl Print + AllocGlobal), block: u64, octets: &[u8]) -> Result<()> {
    let mut reader = Deframe::new(rt.alloc(), block, Limits::usual());
    let mut at = 0;
    'pushes: while at < octets.len() {
        at += reader.push(&octets[at..])?;
        if let Some(placed) = reader.take() {
            walk_packet(rt, placed)?;
        }
    }
    reader.finish()?;
    Ok(())
}

/// A packet, whose body moves into its key or signature.
fn walk_packet(rt: &(impl Print + AllocGlobal), placed: Placed) -> Result<()> {
    let Placed { packet, block, pos } = placed;
    let (_, kind, body) = packet.into_parts();
    let kind = PacketType::from(kind);
    let name = kind.name();
    println!(rt; "packet at {pos}: {name}")?;
    match kind {
        PacketType::PublicKey | PacketType::PublicSubkey => {
            let key = Key::from_body(body).map_err(|fault| fault.placed(block, pos))?;
            walk_key(rt, &key)
        }
        PacketType::Signature => {
            let signature = Signature::from_body(body).map_err(|fault| fault.placed(block, pos))?;
            walk_signature(rt, signature.view())
        }
        _ => Ok(()),
    }
}

/// A key: its version, algorithm, fingerprint and key ID.
fn walk_key(rt: &(impl Print + AllocGlobal), key: &Key) -> Result<()> {
    let version = key.version();
    let algorithm = KeyAlgorithm::from(key.algorithm()).name();
    let created = key.created();
    println!(rt; "  version {version}, {algorithm}, created {created}")?;
    let print = fingerprint(key);
    let id = print.key_id();
    println!(rt; "  fingerprint {print}")?;
    println!(rt; "  key ID {id}")?;
    Ok(())
}

/// A signature: its type, algorithms and hashed subpackets; of an unsupported one, only that it is
/// one.
fn walk_signature(rt: &(impl Print + AllocGlobal), view: SigView<'_>) -> Result<()> {
    let (Some(kind), Some(algorithm), Some(hash)) = (view.kind(), view.algorithm(), view.hash())
    else {
        println!(rt; "  of no version that is typed")?;
        return Ok(());
    };
    let kind = SignatureType::from(kind).name();
    let algorithm = KeyAlgorithm::from(algorithm).name();
    let hash = HashAlgorithm::from(hash).name();
    println!(rt; "  {kind}, {algorithm}, {hash}")?;
    if let Some(subs) = hashed(view) {
        for sub in subs {
            walk_sub(rt, sub)?;
        }
    }
    Ok(())
}

/// The hashed subpackets, in the versions that have some.
fn hashed(view: SigView<'_>) -> Option<Subs<'_>>
    ensures { option_map subs_to_come result ≡ hashed_subs view.entry }
{
    match view {
        SigView::Four(four) => Some(four.hashed()),
        SigView::Six(six) => Some(six.hashed()),
        SigView::Three(_) | SigView::Other(_) => None,
    }
}

/// A hashed subpacket: its kind, whether it is critical, and what some kinds mean.
fn walk_sub(rt: &(impl Print + AllocGlobal), sub: SubView<'_>) -> Result<()> {
    let (number, kind) = (sub.kind(), SubpacketKind::from(sub.kind()).name());
    let critical = if sub.critical() { ", critical" } else { "" };
    print!(rt; "    {number} {kind}{critical}")?;
    match sub.meaning() {
        SubMeaning::Created(time) => println!(rt; ": {time}")?,
        SubMeaning::IssuerFingerprint {
            version,
            fingerprint,
        } => {
            let print = hex::encode_upper(rt.alloc(), fingerprint)?;
            println!(rt; ": version {version}, {print}")?;
        }
        SubMeaning::KeyFlags(flags) | SubMeaning::Features(flags) => {
            let flags = hex::encode_upper(rt.alloc(), flags)?;
            println!(rt; ": {flags}")?;
        }
        SubMeaning::Unfit => println!(rt; ": not of its form")?,
        _ => println!(rt)?,
    }
    Ok(())
}
