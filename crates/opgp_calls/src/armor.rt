//! Armored texts.

use crate::headers::are_writable;
use opgp_armor::{ArmorEvent, Block, armor, dearmor};
use opgp_octets::Limits;
use std::alloc::Global;

/// The blocks of a text, one after the other: what their events say, and their own texts.
pub(crate) fn add_blocks(alloc: Global, text: &[u8], out: &mut Vec<u8>) -> Option<()> {
    for block in &dearmor(alloc, text, &Limits::usual()).ok()?.ok()? {
        add_text(alloc, block, out)?;
        add_events(alloc, block.copy(alloc).ok()?, out)?;
    }
    Some(())
}

/// The text of a block, which takes no more room than it has.
fn add_text(alloc: Global, block: &Block, out: &mut Vec<u8>) -> Option<()> {
    if !are_writable(&block.headers) {
        return None;
    }
    let text = armor(alloc, block.label, &block.headers, &block.octets).ok()?;
    if text.capacity() != text.len() {
        return None;
    }
    out.extend_from_slice(&text).ok()
}

/// What copies of a block's events say.
fn add_events(alloc: Global, block: Block, out: &mut Vec<u8>) -> Option<()> {
    add_event(alloc, &ArmorEvent::Begin(block.label), out)?;
    for (key, value) in block.headers {
        add_event(alloc, &ArmorEvent::Header(key, value), out)?;
    }
    add_event(alloc, &ArmorEvent::Octets(block.octets), out)?;
    add_event(alloc, &ArmorEvent::End, out)
}

/// What a copy of an event says.
fn add_event(alloc: Global, event: &ArmorEvent, out: &mut Vec<u8>) -> Option<()> {
    match event.copy(alloc).ok()? {
        ArmorEvent::Begin(_) => out.push(b'<').ok(),
        ArmorEvent::Header(key, value) => {
            out.extend_from_slice(&key).ok()?;
            out.extend_from_slice(&value).ok()
        }
        ArmorEvent::Octets(octets) => out.extend_from_slice(&octets).ok(),
        ArmorEvent::End => out.push(b'>').ok(),
    }
}
