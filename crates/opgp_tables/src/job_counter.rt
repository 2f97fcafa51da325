//! The size of the table of a keyring's jobs.

ghost use Rattle.std.specs.Prelude.{◌≡◌, length};
ghost use Rattle.std.specs.List.{flat_map};
ghost use Rattle.opgp_packet.specs.SigView.{sig_view_value};
ghost use Rattle.opgp_tables.specs.Jobs.{job_bytes, job_rows, said_parts};
ghost use Rattle.opgp_tables.specs.Sizes.{CountsJobs, capped};

use crate::job_table::{name_in, name_size, parts_of};
use crate::table_sizes::TableSizes;
use opgp_hash::CertificateHasher;
use opgp_keyring::Keyring;
use opgp_packet::SigView;
use opgp_report::{Met, Visitor, visit};
use std::convert::Infallible;

/// How many octets the row of a signature points into.
#[tactic(auto, using(crate::proofs::Counting::three_parts))]
pub(crate) fn said_octets_in(view: SigView<'_>) -> u64
    ensures { result
        ≡ capped (length (flat_map (λ o. o) (said_parts (sig_view_value view.entry)))) }
{
    let [first, second] = parts_of(view);
    (first.len() as u64)
        .saturating_add(second.len() as u64)
        .saturating_add(u64::from(name_size(name_in(view))))
}

/// Counts jobs.
#[derive(Clone, Copy)]
struct JobCounter {
    sizes: TableSizes,
}

impl<'a> Visitor<'a> for JobCounter {
    type Stop = Infallible;

    ghost becomes = { CountsJobs };

    fn meet(
        &mut self,
        _hasher: &mut CertificateHasher<'a>,
        met: &Met<'a>,
    ) -> Result<(), Infallible> {
        match met.signature {
            Some(view) => self.sizes.add(1, said_octets_in(view)),
            None => self.sizes.add(1, 0),
        }
        Ok(())
    }
}

/// How many rows and octets the table of a keyring's jobs has. Allocates nothing, and hashes
/// nothing.
pub fn job_sizes(keyring: &Keyring) -> TableSizes
    ensures rows { result.rows ≡ capped (length (job_rows keyring.now)) }
    ensures bytes { result.bytes ≡ capped (length (job_bytes keyring.now)) }
{
    let mut counter = JobCounter {
        sizes: TableSizes::NOTHING,
    };
    match visit(&mut counter, keyring) {
        Ok(()) => counter.sizes.counted(),
    }
}
