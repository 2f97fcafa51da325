//! The tables of a keyring, put into those of a caller.

ghost use Rattle.std.specs.Prelude.{◌≡◌, ◌≢◌, ◌⊎◌, ◌<◌, ◌≤◌, ℕ, List, length};
ghost use Rattle.std.specs.Prelude.{OnErr, OnOk, Some, None};
ghost use Rattle.std.specs.List.{slice_get};
ghost use Rattle.opgp_tables.specs.HashedRows.{hashed_bytes, hashed_rows};
ghost use Rattle.opgp_tables.specs.Jobs.{job_bytes, job_rows};
ghost use Rattle.opgp_tables.specs.Keys.{key_bytes, key_rows};
ghost use Rattle.opgp_tables.specs.Packets.{packet_bytes, packet_rows};
ghost use Rattle.opgp_tables.specs.Sizes.{capped};
ghost use Rattle.opgp_tables.specs.Subpackets.{subpacket_bytes, subpacket_rows};
ghost use Rattle.opgp_hash.specs.Hashed.{hashed};
ghost use Rattle.opgp_hash.specs.QuestionValue.{QuestionValue};
ghost use Rattle.opgp_report.specs.Asked.{asked_of, question_in};
ghost use Rattle.opgp_keyring.specs.Keyring.{KeyringValue};
ghost use Rattle.opgp_handles.specs.Calls.{AreSized, IsFilled, IsShort, PutsTables};

use crate::calls::{put_both, put_octets};
use crate::ring::Ring;
use crate::sizes::Sizes;
use crate::status::{CLOSED, DONE, MEMORY, NO_ROW, ROOM};
use opgp_keyring::Keyring;
use opgp_octets::OutOfMemory;
use opgp_tables::{
    HashedRow, JobRow, KeyRow, PacketRow, SubpacketRow, TableSizes, fill, fill_jobs, fill_packets,
    fill_subpackets, hashed_rows, job_sizes, key_sizes, keys, packet_sizes, row_octets,
    subpacket_sizes,
};
use std::alloc::Global;

/// The rows of a table of a keyring.
pub trait TableRow: Copy + Sized {
    // The rows of a keyring, and the octets that they point into.
    ghost rows: { KeyringValue → List Self };

    ghost bytes: { KeyringValue → List ℕ };

    /// How many there are of both. Allocates nothing.
    fn sizes(keyring: &Keyring) -> TableSizes
        ensures rows { result.rows ≡ capped (length (rows keyring.now)) }
        ensures bytes { result.bytes ≡ capped (length (bytes keyring.now)) };

    /// Fills the front of two tables with both, if these have the room. Where the making is in
    /// memory of its own, the sizes say how much that is at first. Fails only when out of memory.
    fn fill(
        alloc: Global,
        keyring: &Keyring,
        sizes: TableSizes,
        table: &mut [Self],
        octets: &mut [u8],
    ) -> Result<(), OutOfMemory>
        requires rows { length (rows keyring.now) ≤ length table.old }
        requires bytes { length (bytes keyring.now) ≤ length octets.old }
        ensures rows { OnOk result (IsFilled (rows keyring.now) table.old table.new) }
        ensures bytes { OnOk result (IsFilled (bytes keyring.now) octets.old octets.new) }
        ensures kept { OnErr result ((table.new ≡ table.old) × (octets.new ≡ octets.old)) };
}

/// Fills the front of two tables that have the room.
fn fill_both<T: Copy>(found: &[T], made: &[u8], table: &mut [T], octets: &mut [u8])
    requires rows { length found.now ≤ length table.old }
    requires bytes { length made.now ≤ length octets.old }
    ensures rows { IsFilled found.now table.old table.new }
    ensures bytes { IsFilled made.now octets.old octets.new }
{
    fill(found, table);
    fill(made, octets);
}

impl TableRow for PacketRow {
    ghost rows = { packet_rows };

    ghost bytes = { packet_bytes };

    fn sizes(keyring: &Keyring) -> TableSizes {
        packet_sizes(keyring)
    }

    fn fill(
        _alloc: Global,
        keyring: &Keyring,
        _sizes: TableSizes,
        table: &mut [PacketRow],
        octets: &mut [u8],
    ) -> Result<(), OutOfMemory> {
        fill_packets(keyring, table, octets);
        Ok(())
    }
}

impl TableRow for KeyRow {
    ghost rows = { key_rows };

    ghost bytes = { key_bytes };

    fn sizes(keyring: &Keyring) -> TableSizes {
        key_sizes(keyring)
    }

    fn fill(
        alloc: Global,
        keyring: &Keyring,
        sizes: TableSizes,
        table: &mut [KeyRow],
        octets: &mut [u8],
    ) -> Result<(), OutOfMemory> {
        let (found, made) = keys(alloc, keyring, sizes)?;
        fill_both(&found, &made, table, octets);
        Ok(())
    }
}

impl TableRow for JobRow {
    ghost rows = { job_rows };

    ghost bytes = { job_bytes };

    fn sizes(keyring: &Keyring) -> TableSizes {
        job_sizes(keyring)
    }

    fn fill(
        alloc: Global,
        keyring: &Keyring,
        _sizes: TableSizes,
        table: &mut [JobRow],
        octets: &mut [u8],
    ) -> Result<(), OutOfMemory> {
        fill_jobs(alloc, keyring, table, octets)
    }
}

impl TableRow for SubpacketRow {
    ghost rows = { subpacket_rows };

    ghost bytes = { subpacket_bytes };

    fn sizes(keyring: &Keyring) -> TableSizes {
        subpacket_sizes(keyring)
    }

    fn fill(
        _alloc: Global,
        keyring: &Keyring,
        _sizes: TableSizes,
        table: &mut [SubpacketRow],
        octets: &mut [u8],
    ) -> Result<(), OutOfMemory> {
        fill_subpackets(keyring, table, octets);
        Ok(())
    }
}

/// Puts a table of what a handle holds.
pub fn put_table<T: TableRow>(
    alloc: Global,
    ring: &mut Ring,
    rows: &mut [T],
    bytes: &mut [u8],
    sizes: &mut Sizes,
) -> u32
    ensures { PutsTables T.rows T.bytes ring.old ring.new rows.old rows.new bytes.old bytes.new
        sizes.new result }
{
    let Some(held) = ring.take(alloc) else {
        return CLOSED;
    };
    let status = put_rows(alloc, &held.keyring, rows, bytes, sizes);
    ring.give(held);
    status
}

/// Puts a table of a keyring: where there is too little room, none is made, and where its sizes are
/// beyond numbers of 64 bits, there is no memory for it.
fn put_rows<T: TableRow>(
    alloc: Global,
    keyring: &Keyring,
    rows: &mut [T],
    bytes: &mut [u8],
    sizes: &mut Sizes,
) -> u32
    ensures done { result ≡ 0 → IsFilled (T.rows keyring.now) rows.old rows.new
        × IsFilled (T.bytes keyring.now) bytes.old bytes.new }
    ensures room { result ≡ 2
        → IsShort (T.rows keyring.now) (T.bytes keyring.now) rows.old bytes.old }
    ensures kept { result ≢ 0 → (rows.new ≡ rows.old) × (bytes.new ≡ bytes.old) }
    ensures sizes { result ≢ 3 → AreSized (T.rows keyring.now) (T.bytes keyring.now) sizes.new }
    ensures status { (result ≡ 0) ⊎ ((result ≡ 2) ⊎ (result ≡ 3)) }
{
    let wanted = T::sizes(keyring);
    if wanted.rows == u64::MAX || wanted.bytes == u64::MAX {
        return MEMORY;
    }
    *sizes = Sizes {
        rows: wanted.rows,
        bytes: wanted.bytes,
    };
    if wanted.rows > rows.len() as u64 || wanted.bytes > bytes.len() as u64 {
        return ROOM;
    }
    match T::fill(alloc, keyring, wanted, rows, bytes) {
        Ok(()) => DONE,
        Err(_) => MEMORY,
    }
}

/// Puts the octets that the signature of a row hashes.
pub(crate) fn put_row_octets(
    alloc: Global,
    keyring: &Keyring,
    row: u64,
    octets: &mut [u8],
    size: &mut u64,
) -> u32
    ensures done { result ≡ 0 → (q : QuestionValue)
        × (question_in (slice_get (asked_of keyring.now) row) ≡ Some q)
        × IsFilled (hashed q) octets.old octets.new × (size.new ≡ length (hashed q)) }
    ensures room { result ≡ 2 → (q : QuestionValue)
        × (question_in (slice_get (asked_of keyring.now) row) ≡ Some q)
        × (length octets.old < length (hashed q)) × (size.new ≡ length (hashed q)) }
    ensures none { result ≡ 6 → question_in (slice_get (asked_of keyring.now) row) ≡ None }
    ensures kept { result ≢ 0 → octets.new ≡ octets.old }
    ensures status { (result ≡ 0) ⊎ ((result ≡ 2) ⊎ ((result ≡ 3) ⊎ (result ≡ 6))) }
{
    match row_octets(alloc, keyring, row as usize) {
        Ok(Some(found)) => put_octets(&found, octets, size),
        Ok(None) => NO_ROW,
        Err(_) => MEMORY,
    }
}

/// Which signatures are asked for: from the first row on, at most so many, as many as hash no more
/// octets than `most`.
#[derive(Clone, Copy)]
pub struct Window {
    /// The first row.
    pub first: u64,
    /// How many rows at most.
    pub count: u64,
    /// How many octets at most.
    pub most: u64,
}

/// Puts the table of what some signatures of what a handle holds hash.
pub fn put_hashed(
    alloc: Global,
    ring: &mut Ring,
    window: Window,
    rows: &mut [HashedRow],
    bytes: &mut [u8],
    sizes: &mut Sizes,
) -> u32
    ensures { PutsTables (hashed_rows window.first window.count window.most)
        (hashed_bytes window.first window.count window.most) ring.old ring.new rows.old rows.new
        bytes.old bytes.new sizes.new result }
{
    let Some(held) = ring.take(alloc) else {
        return CLOSED;
    };
    let Window { first, count, most } = window;
    let status = match hashed_rows(alloc, &held.keyring, first, count, most) {
        Ok((found, octets)) => put_both(&found, &octets, rows, bytes, sizes),
        Err(_) => MEMORY,
    };
    ring.give(held);
    status
}
