//! The call that finds armored blocks in a text.

ghost use Rattle.std.specs.Prelude.{◌≡◌, ◌≢◌, ◌⊎◌, ◌≤◌, ◌+◌, length, IfOk};
ghost use Rattle.opgp_blocks.specs.Blocks.{cleaned_in, found_in};
ghost use Rattle.opgp_handles.specs.Calls.{AreSized, IsFilled, IsShort};
ghost use Rattle.opgp_handles.specs.FoundBlocks.{found_rows};

use crate::calls::put_both;
use crate::sizes::Sizes;
use crate::status::MEMORY;
use opgp_blocks::Blocks;
use opgp_octets::OutOfMemory;
use std::alloc::Global;

/// A row of the table of blocks: for C `opgp_found_block`.
#[repr(C)]
#[derive(Clone, Copy)]
pub struct FoundRow {
    at: u64,
    size: u64,
    octets_at: u64,
    octets_size: u64,
}

/// Fills the tables with the armored blocks in a text, and their cleaned octets.
pub fn find_blocks(
    alloc: Global,
    text: &[u8],
    rows: &mut [FoundRow],
    bytes: &mut [u8],
    sizes: &mut Sizes,
) -> u32
    ensures done { result ≡ 0 → IsFilled (found_rows 0 (found_in text.now)) rows.old rows.new
        × IsFilled (cleaned_in text.now) bytes.old bytes.new }
    ensures room { result ≡ 2 → IsShort (found_rows 0 (found_in text.now))
        (cleaned_in text.now) rows.old bytes.old }
    // Room for one octet more than the text has is enough.
    ensures few { result ≢ 3 → sizes.new.bytes ≤ length text.now + 1 }
    ensures kept { result ≢ 0 → (rows.new ≡ rows.old) × (bytes.new ≡ bytes.old) }
    ensures sizes { result ≢ 3 → AreSized (found_rows 0 (found_in text.now))
        (cleaned_in text.now) sizes.new }
    ensures status { (result ≡ 0) ⊎ ((result ≡ 2) ⊎ (result ≡ 3)) }
{
    match found_tables(alloc, text) {
        Ok((found, octets)) => put_both(&found, &octets, rows, bytes, sizes),
        Err(_) => MEMORY,
    }
}

/// The table of the blocks in a text, and their cleaned octets, one behind the other.
fn found_tables(alloc: Global, text: &[u8]) -> Result<(Vec<FoundRow>, Vec<u8>), OutOfMemory>
    ensures { IfOk result (λ t. (t.0.items ≡ found_rows 0 (found_in text.now))
        × (t.1.items ≡ cleaned_in text.now)) }
{
    let mut rows = Vec::new(alloc);
    let mut octets = Vec::new(alloc);
    let mut blocks = Blocks::new(text);
    'found: while let Some(block) = blocks.next() {
        rows.push(FoundRow {
            at: block.at() as u64,
            size: block.size() as u64,
            octets_at: octets.len() as u64,
            octets_size: block.cleaned_len() as u64,
        })?;
        block.write(&mut octets)?;
    }
    Ok((rows, octets))
}
