//! The table of the subpackets of signatures over a document.

ghost use Rattle.std.specs.Prelude.{◌≡◌, ◌+◌, ◌≤◌, ◌++◌, drop, length};
ghost use Rattle.std.specs.List.{flat_map};
ghost use Rattle.opgp_keyring.specs.DetachedSignatures.{detached_packets};
ghost use Rattle.opgp_keyring.specs.Signed.{signature_bodies};
ghost use Rattle.opgp_keyring.specs.SignedLiteral.{signatures_left};
ghost use Rattle.opgp_tables.specs.DocumentJobs.{document_subpacket_bytes};
ghost use Rattle.opgp_tables.specs.DocumentJobs.{document_subpacket_rows, document_subs};
ghost use Rattle.opgp_tables.specs.DocumentJobs.{read_shown, signature_place};
ghost use Rattle.opgp_tables.specs.Filling.{Fills};
ghost use Rattle.opgp_tables.specs.Sizes.{capped};
ghost use Rattle.opgp_tables.specs.Subpackets.{octets_read, rows_read, subs_read};

use crate::document_jobs::signature_place;
use crate::subpacket_counter::SubpacketCounter;
use crate::subpacket_row::SubpacketRow;
use crate::subpacket_table::{areas_in, put_areas};
use crate::table_sizes::TableSizes;
use opgp_keyring::{DetachedSignatures, Signatures};
use opgp_octets::BodyFault;
use opgp_packet::SigView;

/// Puts the subpackets of the signature of this number, and says how many rows and octets there are
/// then.
fn put_subpackets(
    rows: &mut [SubpacketRow],
    bytes: &mut [u8],
    here: TableSizes,
    number: usize,
    read: Result<SigView<'_>, BodyFault>,
) -> TableSizes
    requires rows { here.rows + length (subs_read (read_shown read)) ≤ length rows.old }
    requires bytes { here.bytes + length (octets_read (read_shown read)) ≤ length bytes.old }
    ensures { Fills (rows_read (signature_place number) here.bytes (read_shown read.entry))
        (octets_read (read_shown read.entry)) here result rows.old rows.new bytes.old bytes.new }
{
    let Ok(view) = read else {
        return here;
    };
    match areas_in(view) {
        Some((hashed, unhashed)) => {
            put_areas(rows, bytes, here, signature_place(number), hashed, unhashed)
        }
        None => here,
    }
}

/// Puts the subpackets of so many signatures at the front of two tables that have the room.
fn put_all(
    mut signatures: Signatures<'_>,
    count: usize,
    rows: &mut [SubpacketRow],
    bytes: &mut [u8],
)
    requires count { count ≡ length (signatures_left signatures) }
    requires rows { length (flat_map document_subs (signatures_left signatures))
        ≤ length rows.old }
    requires bytes { length (document_subpacket_bytes (signatures_left signatures))
        ≤ length bytes.old }
    ensures rows { rows.new ≡ document_subpacket_rows (signatures_left signatures.entry)
        ++ drop (length (document_subpacket_rows (signatures_left signatures.entry))) rows.old }
    ensures bytes { bytes.new ≡ document_subpacket_bytes (signatures_left signatures.entry)
        ++ drop (length (document_subpacket_bytes (signatures_left signatures.entry))) bytes.old }
{
    let mut reached = TableSizes::NOTHING;
    let mut number = 0;
    'signatures: while let Some(read) = signatures.next() {
        reached = put_subpackets(rows, bytes, reached, number, read);
        number += 1;
    }
}

/// Fills the front of two tables with the subpackets of the signatures over a document, those of
/// each in order, and of its hashed area first; and the octets that they point into. The condition
/// is that both have the room that [`document_subpacket_sizes`] tells.
pub fn fill_document_subpackets(
    signatures: &DetachedSignatures,
    rows: &mut [SubpacketRow],
    bytes: &mut [u8],
)
    requires rows { length (document_subpacket_rows (signature_bodies
        (detached_packets signatures.now))) ≤ length rows.old }
    requires bytes { length (document_subpacket_bytes (signature_bodies
        (detached_packets signatures.now))) ≤ length bytes.old }
    ensures rows { rows.new
        ≡ document_subpacket_rows (signature_bodies (detached_packets signatures.now))
        ++ drop (length (document_subpacket_rows (signature_bodies
        (detached_packets signatures.now)))) rows.old }
    ensures bytes { bytes.new
        ≡ document_subpacket_bytes (signature_bodies (detached_packets signatures.now))
        ++ drop (length (document_subpacket_bytes (signature_bodies
        (detached_packets signatures.now)))) bytes.old }
{
    put_all(signatures.signatures(), signatures.count(), rows, bytes);
}

/// Counts the subpackets of a signature.
fn add_subpackets(counter: &mut SubpacketCounter, read: Result<SigView<'_>, BodyFault>)
    ensures rows { counter.new.sizes.rows
        ≡ capped (counter.old.sizes.rows + length (subs_read (read_shown read.entry))) }
    ensures bytes { counter.new.sizes.bytes
        ≡ capped (counter.old.sizes.bytes + length (octets_read (read_shown read.entry))) }
{
    match read {
        Ok(view) => counter.add_areas(view),
        Err(_) => counter.sizes.add(0, 0),
    }
}

/// How large the table of the subpackets of these signatures is.
fn sizes_of(mut signatures: Signatures<'_>) -> TableSizes
    ensures rows { result.rows
        ≡ capped (length (flat_map document_subs (signatures_left signatures.entry))) }
    ensures bytes { result.bytes
        ≡ capped (length (document_subpacket_bytes (signatures_left signatures.entry))) }
{
    let mut counter = SubpacketCounter {
        sizes: TableSizes::NOTHING,
    };
    'signatures: while let Some(read) = signatures.next() {
        add_subpackets(&mut counter, read);
    }
    counter.sizes
}

/// How many rows and octets the table of the subpackets of the signatures over a document has.
/// Allocates nothing.
pub fn document_subpacket_sizes(signatures: &DetachedSignatures) -> TableSizes
    ensures rows { result.rows ≡ capped (length (document_subpacket_rows (signature_bodies
        (detached_packets signatures.now)))) }
    ensures bytes { result.bytes ≡ capped (length (document_subpacket_bytes (signature_bodies
        (detached_packets signatures.now)))) }
{
    sizes_of(signatures.signatures())
}
