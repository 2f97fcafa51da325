//! A caller's table of subpackets, in the making.

ghost use Rattle.std.specs.Prelude.{◌≡◌, ◌≤◌, ◌++◌, ◌↔◌, ◌+◌, IsTrue, OnOk, OnErr, drop, length};
ghost use Rattle.opgp_packet.specs.Subs.{subs_to_come};
ghost use Rattle.opgp_tables.specs.FilledSubpackets.{FillsSubpackets};
ghost use Rattle.opgp_tables.specs.Sizes.{capped};
ghost use Rattle.opgp_tables.specs.Subpackets.{area_octets, subpacket_bytes, subpacket_rows};

use crate::job_filler::NoRoom;
use crate::subpacket_counter::SubpacketCounter;
use crate::subpacket_row::SubpacketRow;
use crate::subpacket_table::{areas_in, put_areas};
use crate::table_sizes::TableSizes;
use opgp_hash::CertificateHasher;
use opgp_keyring::Keyring;
use opgp_packet::Subs;
use opgp_report::{Met, Visitor, visit};

/// How large the tables of two areas are.
fn sizes_of(hashed: Subs<'_>, unhashed: Subs<'_>) -> TableSizes
    ensures rows { result.rows ≡ capped (length (subs_to_come hashed.entry)
        + length (subs_to_come unhashed.entry)) }
    ensures bytes { result.bytes ≡ capped (length (area_octets (subs_to_come hashed.entry))
        + length (area_octets (subs_to_come unhashed.entry))) }
{
    let mut counter = SubpacketCounter {
        sizes: TableSizes::NOTHING,
    };
    counter.add_area(hashed);
    counter.add_area(unhashed);
    counter.sizes
}

/// Whether there is room for so many rows and octets behind these in tables of such lengths.
fn has_room(here: TableSizes, wanted: TableSizes, rows: u64, bytes: u64) -> bool
    ensures { IsTrue result ↔ ((here.rows + wanted.rows ≤ rows)
        × (here.bytes + wanted.bytes ≤ bytes)) }
{
    wanted.rows <= rows
        && here.rows <= rows - wanted.rows
        && wanted.bytes <= bytes
        && here.bytes <= bytes - wanted.bytes
}

/// A caller's table of subpackets, which is filled so far.
#[derive(Drop)]
struct SubpacketFiller<'t> {
    rows: &'t mut [SubpacketRow],
    bytes: &'t mut [u8],
    here: TableSizes,
}

impl<'a> Visitor<'a> for SubpacketFiller<'_> {
    type Stop = NoRoom;

    ghost becomes = { FillsSubpackets };

    fn meet(&mut self, _hasher: &mut CertificateHasher<'a>, met: &Met<'a>) -> Result<(), NoRoom> {
        let Some(signature) = met.signature else {
            return Ok(());
        };
        let Some((hashed, unhashed)) = areas_in(signature) else {
            return Ok(());
        };
        let wanted = sizes_of(hashed, unhashed);
        if !has_room(
            self.here,
            wanted,
            self.rows.len() as u64,
            self.bytes.len() as u64,
        ) {
            return Err(NoRoom);
        }
        self.here = put_areas(
            self.rows, self.bytes, self.here, met.place, hashed, unhashed,
        );
        Ok(())
    }
}

/// Fills the front of two tables with the rows of the subpackets of a keyring's signatures, those
/// of each signature in the order of its report, and of its hashed area first; and the octets that
/// they point into. The condition is that both have the room that [`crate::subpacket_sizes`] tells.
pub fn fill_subpackets(keyring: &Keyring, rows: &mut [SubpacketRow], bytes: &mut [u8])
    requires rows { length (subpacket_rows keyring.now) ≤ length rows.old }
    requires bytes { length (subpacket_bytes keyring.now) ≤ length bytes.old }
    ensures rows { rows.new
        ≡ subpacket_rows keyring.now ++ drop (length (subpacket_rows keyring.now)) rows.old }
    ensures bytes { bytes.new
        ≡ subpacket_bytes keyring.now ++ drop (length (subpacket_bytes keyring.now)) bytes.old }
{
    let mut filler = SubpacketFiller {
        rows,
        bytes,
        here: TableSizes::NOTHING,
    };
    match visit(&mut filler, keyring) {
        Ok(()) => {}
        Err(NoRoom) => unreachable!(),
    }
}
