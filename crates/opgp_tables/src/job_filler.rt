//! A caller's table of jobs, in the making.

ghost use Rattle.std.specs.Prelude.{◌≡◌, ◌∷◌, [], ◌+◌, ◌<◌, ◌≤◌, length, MatchOption};
ghost use Rattle.std.specs.List.{flat_map};
ghost use Rattle.opgp_packet.specs.SigView.{sig_view_value};
ghost use Rattle.opgp_report.specs.IssuerName.{name_value};
ghost use Rattle.opgp_report.specs.KeyIndex.{prints_shown};
ghost use Rattle.opgp_tables.specs.Filling.{Fills, put};
ghost use Rattle.opgp_tables.specs.FilledJobs.{FillsJobs};
ghost use Rattle.opgp_tables.specs.Jobs.{name_octets, opaque_row, said_parts, signature_row};

use crate::job_counter::said_octets_in;
use crate::job_row::{Answered, JobRow};
use crate::job_table::{answer_to, made_row, name_in, opaque_row, parts_of};
use crate::putting::{put_item, put_octets};
use crate::table_sizes::TableSizes;
use opgp_hash::CertificateHasher;
use opgp_packet::SigView;
use opgp_report::{IssuerName, KeyIndex, Met, Place, Visitor};

/// The octets of a fingerprint or a key ID.
fn name_octets_of(name: &IssuerName) -> &[u8]
    ensures { result.now ≡ name_octets (name_value name.now) }
{
    match name {
        IssuerName::Print(print) => print.octets(),
        IssuerName::Id(id) => &id.0,
        IssuerName::Unnamed => &[],
    }
}

/// Puts three pieces, one behind the other, and says where they end.
#[tactic(auto, using(crate::proofs::Filling::three_put))]
fn put_three(table: &mut [u8], at: usize, a: &[u8], b: &[u8], c: &[u8]) -> usize
    requires { at + length (flat_map (λ o. o) (a.now ∷ b.now ∷ c.now ∷ [])) ≤ length table.old }
    ensures put { table.new ≡ put at (flat_map (λ o. o) (a.now ∷ b.now ∷ c.now ∷ [])) table.old }
    ensures end { result ≡ at + length (flat_map (λ o. o) (a.now ∷ b.now ∷ c.now ∷ [])) }
{
    let second = at + a.len();
    let third = second + b.len();
    put_octets(table, at, a);
    put_octets(table, second, b);
    put_octets(table, third, c);
    third + c.len()
}

/// Puts what the row of a signature points into, and says where it ends.
fn put_said(bytes: &mut [u8], at: usize, view: SigView<'_>) -> usize
    requires { at + length (flat_map (λ o. o) (said_parts (sig_view_value view)))
        ≤ length bytes.old }
    ensures put { bytes.new
        ≡ put at (flat_map (λ o. o) (said_parts (sig_view_value view.entry))) bytes.old }
    ensures end { result
        ≡ at + length (flat_map (λ o. o) (said_parts (sig_view_value view.entry))) }
{
    let [first, second] = parts_of(view);
    let name = name_in(view);
    let third = name_octets_of(&name);
    put_three(bytes, at, first, second, third)
}

/// Puts the row of a signature and what it points into, and says how many rows and octets there are
/// then.
pub(crate) fn put_job(
    names: &KeyIndex,
    rows: &mut [JobRow],
    bytes: &mut [u8],
    here: TableSizes,
    place: Place,
    view: SigView<'_>,
    answer: Answered,
) -> TableSizes
    requires rows { here.rows < length rows.old }
    requires bytes { here.bytes + length (flat_map (λ o. o) (said_parts (sig_view_value view)))
        ≤ length bytes.old }
    ensures { Fills (signature_row (prints_shown names.now) place here.bytes
        (sig_view_value view.entry) answer ∷ [])
        (flat_map (λ o. o) (said_parts (sig_view_value view.entry)))
        here result rows.old rows.new bytes.old bytes.new }
{
    let end = put_said(bytes, here.bytes as usize, view);
    let row = made_row(names, place, here.bytes, view, answer);
    put_item(rows, here.rows as usize, row);
    TableSizes {
        rows: here.rows + 1,
        bytes: end as u64,
    }
}

/// Puts the row of octets that aren't a signature, and says how many rows and octets there are then.
pub(crate) fn put_opaque(rows: &mut [JobRow], here: TableSizes, place: Place) -> TableSizes
    requires { here.rows < length rows.old }
    ensures put { rows.new ≡ put here.rows (opaque_row place here.bytes ∷ []) rows.old }
    ensures rows { result.rows ≡ here.rows + 1 }
    ensures bytes { result.bytes ≡ here.bytes }
{
    put_item(rows, here.rows as usize, opaque_row(place, here.bytes));
    let mut behind = here;
    behind.rows += 1;
    behind
}

/// A caller's table of jobs, which is filled so far, and the index of the keyring's keys.
#[derive(Drop)]
pub(crate) struct JobFiller<'n, 't> {
    pub(crate) names: &'n KeyIndex,
    pub(crate) rows: &'t mut [JobRow],
    pub(crate) bytes: &'t mut [u8],
    pub(crate) here: TableSizes,
}

impl JobFiller<'_, '_> {
    /// How many octets there is room for, if there is room for a row.
    fn room(&self) -> Option<u64>
        ensures { MatchOption result
            (self.now.here.rows < length self.now.rows.now
            → self.now.here.bytes ≤ length self.now.bytes.now → ⊥)
            (λ left. (self.now.here.rows < length self.now.rows.now)
            × (self.now.here.bytes + left ≡ length self.now.bytes.now)) }
    {
        if self.here.rows < self.rows.len() as u64 {
            (self.bytes.len() as u64).checked_sub(self.here.bytes)
        } else {
            None
        }
    }
}

/// There is too little room.
#[derive(Clone, Copy)]
pub(crate) struct NoRoom;

impl<'a> Visitor<'a> for JobFiller<'_, '_> {
    type Stop = NoRoom;

    ghost becomes = { FillsJobs };

    fn meet(&mut self, hasher: &mut CertificateHasher<'a>, met: &Met<'a>) -> Result<(), NoRoom> {
        let Some(left) = self.room() else {
            return Err(NoRoom);
        };
        match met.signature {
            Some(signature) => {
                if said_octets_in(signature) > left {
                    return Err(NoRoom);
                }
                let answer = answer_to(hasher, met);
                self.here = put_job(
                    self.names, self.rows, self.bytes, self.here, met.place, signature, answer,
                );
            }
            None => self.here = put_opaque(self.rows, self.here, met.place),
        }
        Ok(())
    }
}
