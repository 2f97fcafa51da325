//! The rows of signatures while not all keys are known.

ghost use Rattle.std.specs.Prelude.{◌≡◌, [], ◌∷◌, List, map};
ghost use Rattle.opgp_report.specs.IssuerName.{name_value};
ghost use Rattle.opgp_report.specs.KeyIndex.{prints_shown};
ghost use Rattle.opgp_report.specs.Row.{row_value};
ghost use Rattle.opgp_report.specs.RowMaker.{AddsUnsigned, Keeps, signed_rows};
ghost use Rattle.opgp_report.specs.RowValue.{RowValue};

use crate::issuer_name::IssuerName;
use crate::key_index::KeyIndex;
use crate::left_octets::LeftOctets;
use crate::met::{Met, Posed};
use crate::reporter::found;
use crate::row::{Finding, Row};
use crate::signing::issuer_named;
use crate::walk::Visitor;
use opgp_hash::CertificateHasher;
use opgp_octets::OutOfMemory;
use std::alloc::Global;

/// Adds a row without a signer for each signature, and for each that is hashed the name of its
/// issuer.
#[derive(Drop)]
pub(crate) struct RowMaker {
    pub(crate) rows: Vec<Row>,
    pub(crate) issuers: Vec<IssuerName>,
}

impl RowMaker {
    /// No rows yet.
    pub(crate) fn new(alloc: Global) -> RowMaker
        ensures { Keeps result [] [] }
    {
        RowMaker {
            rows: Vec::new(alloc),
            issuers: Vec::new(alloc),
        }
    }

    /// The rows, with the key IDs of the keys that are named, where the index has them. Allocates
    /// nothing.
    pub(crate) fn signed(self, keys: &KeyIndex) -> Vec<Row>
        ensures { map row_value result.items ≡ signed_rows (prints_shown keys.now)
            (map row_value self.rows.items) (map name_value self.issuers.items) }
    {
        let RowMaker { mut rows, issuers } = self;
        sign_rows(&mut rows, &issuers, keys);
        rows
    }
}

/// Fills in the signers of rows, from the names of their issuers.
pub(crate) fn sign_rows(rows: &mut Vec<Row>, issuers: &[IssuerName], keys: &KeyIndex)
    ensures { map row_value rows.new.items ≡ signed_rows (prints_shown keys.now)
        (map row_value rows.old.items) (map name_value issuers.now) }
{
    let mut left = issuers;
    for row in rows.iter_mut() {
        left = sign_row(row, left, keys);
    }
}

/// Fills in the signer of a row that is hashed, from the first of these names, and returns the
/// others; of another row all names are left.
fn sign_row<'n>(row: &mut Row, names: &'n [IssuerName], keys: &KeyIndex) -> &'n [IssuerName]
    ensures { (rows : List RowValue)
        → signed_rows (prints_shown keys.now) (row_value row.old ∷ rows) (map name_value names.now)
        ≡ row_value row.new
        ∷ signed_rows (prints_shown keys.now) rows (map name_value result.now) }
{
    let Finding::Asked {
        kind,
        hash,
        digest,
        verdict,
        ..
    } = row.finding
    else {
        return names;
    };
    let [name, more @ ..] = names else {
        return names;
    };
    row.finding = Finding::Asked {
        kind,
        hash,
        signer: keys.id_named(*name),
        digest,
        verdict,
    };
    more
}

impl<'a> Visitor<'a> for RowMaker {
    type Stop = OutOfMemory;

    ghost becomes = { AddsUnsigned };

    fn meet(
        &mut self,
        hasher: &mut CertificateHasher<'a>,
        met: &Met<'a>,
    ) -> Result<(), OutOfMemory> {
        let place = met.place;
        match met.asked(hasher) {
            Posed::Question(signature, question) => {
                self.issuers.push(issuer_named(signature))?;
                let finding = found(hasher, signature, &question, None, &LeftOctets);
                Ok(self.rows.push(Row { place, finding })?)
            }
            Posed::Nothing(why) => {
                let finding = Finding::NotAsked(why);
                Ok(self.rows.push(Row { place, finding })?)
            }
        }
    }
}
