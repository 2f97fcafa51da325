//! The size of the table of the subpackets of a keyring's signatures.

ghost use Rattle.std.specs.Prelude.{◌≡◌, ◌+◌, Ok, length};
ghost use Rattle.opgp_packet.specs.SigView.{sig_view_value};
ghost use Rattle.opgp_packet.specs.Subs.{subs_to_come};
ghost use Rattle.opgp_tables.specs.Sizes.{CountsSubpackets, capped};
ghost use Rattle.opgp_tables.specs.Subpackets.{area_octets, octets_read, subpacket_bytes};
ghost use Rattle.opgp_tables.specs.Subpackets.{subpacket_rows, subs_read};

use crate::subpacket_table::areas_in;
use crate::table_sizes::TableSizes;
use opgp_hash::CertificateHasher;
use opgp_keyring::Keyring;
use opgp_packet::{SigView, Subs};
use opgp_report::{Met, Visitor, visit};
use std::convert::Infallible;

/// Counts the subpackets of a keyring's signatures.
#[derive(Clone, Copy)]
pub(crate) struct SubpacketCounter {
    pub(crate) sizes: TableSizes,
}

impl SubpacketCounter {
    /// Counts an area's subpackets.
    pub(crate) fn add_area(&mut self, mut subpackets: Subs<'_>)
        ensures rows { self.new.sizes.rows
            ≡ capped (self.old.sizes.rows + length (subs_to_come subpackets.entry)) }
        ensures bytes { self.new.sizes.bytes
            ≡ capped (self.old.sizes.bytes + length (area_octets (subs_to_come subpackets.entry))) }
    {
        let mut rows = 0u64;
        let mut bytes = 0u64;
        'subpackets: while let Some(subpacket) = subpackets.next() {
            rows = rows.saturating_add(1);
            bytes = bytes.saturating_add(subpacket.octets().len() as u64);
        }
        self.sizes.add(rows, bytes);
    }

    /// Counts a signature's subpackets.
    pub(crate) fn add_areas(&mut self, view: SigView<'_>)
        ensures rows { self.new.sizes.rows ≡ capped (self.old.sizes.rows
            + length (subs_read (Ok (sig_view_value view.entry)))) }
        ensures bytes { self.new.sizes.bytes ≡ capped (self.old.sizes.bytes
            + length (octets_read (Ok (sig_view_value view.entry)))) }
    {
        match areas_in(view) {
            Some((hashed, unhashed)) => {
                self.add_area(hashed);
                self.add_area(unhashed);
            }
            None => self.sizes.add(0, 0),
        }
    }
}

impl<'a> Visitor<'a> for SubpacketCounter {
    type Stop = Infallible;

    ghost becomes = { CountsSubpackets };

    fn meet(
        &mut self,
        _hasher: &mut CertificateHasher<'a>,
        met: &Met<'a>,
    ) -> Result<(), Infallible> {
        match met.signature {
            Some(view) => self.add_areas(view),
            None => self.sizes.add(0, 0),
        }
        Ok(())
    }
}

/// How many rows and octets the table of the subpackets of a keyring's signatures has. Allocates
/// nothing.
pub fn subpacket_sizes(keyring: &Keyring) -> TableSizes
    ensures rows { result.rows ≡ capped (length (subpacket_rows keyring.now)) }
    ensures bytes { result.bytes ≡ capped (length (subpacket_bytes keyring.now)) }
{
    let mut counter = SubpacketCounter {
        sizes: TableSizes::NOTHING,
    };
    match visit(&mut counter, keyring) {
        Ok(()) => counter.sizes.counted(),
    }
}
