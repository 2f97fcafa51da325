//! Reports with fingerprints.

ghost use Rattle.std.specs.Prelude.{◌≡◌, ◌<◌, ◌^◌, length, map};
ghost use Rattle.opgp_report.specs.FoundRows.{names_behind, signer_by};
ghost use Rattle.opgp_report.specs.IssuerName.{name_value};
ghost use Rattle.opgp_report.specs.KeyIndex.{prints_shown};
ghost use Rattle.opgp_report.specs.Row.{finding_value};

use crate::issuer_name::IssuerName;
use crate::key_index::KeyIndex;
use crate::row::{Finding, Row};
use opgp_hash::Fingerprint;

/// A row of a report, with fingerprints (RFC 9580, 5.5.4).
#[derive(Clone, Copy)]
pub struct FingerprintedRow {
    /// The row.
    pub row: Row,
    /// That of the primary key of the signature's certificate.
    pub certificate: Fingerprint,
    /// That of the key that the row has the key ID of, as its signer.
    pub signer: Option<Fingerprint>,
}

/// What is found of the signatures of a keyring, in order, with fingerprints. It keeps the rows,
/// the name of the issuer of each that is hashed, and an index of the keys, where signers are found
/// as rows are visited.
#[derive(Drop)]
pub struct FingerprintedReport {
    pub(crate) rows: Vec<Row>,
    pub(crate) issuers: Vec<IssuerName>,
    pub(crate) keys: KeyIndex,
    pub(crate) primaries: Vec<Fingerprint>,
}

impl FingerprintedReport {
    ghost use Rattle.opgp_report.specs.Fingerprinting.{fingerprinted_rows_of, rows_to_come};

    /// Its rows, in order.
    pub fn rows(&self) -> FingerprintedRows<'_>
        ensures { rows_to_come result ≡ fingerprinted_rows_of self.now }
    {
        FingerprintedRows {
            rows: &self.rows,
            names: &self.issuers,
            keys: &self.keys,
            primaries: &self.primaries,
        }
    }
}

/// The rows of a report that are left to be visited, in order, with fingerprints. A signer is found
/// in time that grows with the logarithm of the number of keys. Allocates nothing.
#[derive(Clone, Copy)]
pub struct FingerprintedRows<'a> {
    rows: &'a [Row],
    names: &'a [IssuerName],
    keys: &'a KeyIndex,
    primaries: &'a [Fingerprint],
    ghost few: { length rows.now < 2 ^ 64 },
}

impl Iterator for FingerprintedRows<'_> {
    ghost use Rattle.opgp_report.specs.Fingerprinting.{fingerprinted_value, rows_to_come};
    ghost use Rattle.std.specs.Iterator.{YieldsFirstBy, item_count};

    type Item = FingerprintedRow;

    ghost next_gives = { YieldsFirstBy fingerprinted_value rows_to_come };

    ghost remaining = { item_count rows_to_come };

    fn next(&mut self) -> Option<FingerprintedRow> {
        let [row, rows @ ..] = self.rows else {
            return None;
        };
        let certificate = match self.primaries.get(row.place.certificate) {
            Some(print) => *print,
            None => return None,
        };
        let (signer, names) = take_signer(&row.finding, self.names, self.keys);
        self.rows = rows;
        self.names = names;
        Some(FingerprintedRow {
            row: *row,
            certificate,
            signer,
        })
    }
}

/// The fingerprint of the key that the first of these names is of, and the other names, if this is
/// found of a signature that is hashed; else none, and all names are left.
fn take_signer<'n>(
    finding: &Finding,
    names: &'n [IssuerName],
    keys: &KeyIndex,
) -> (Option<Fingerprint>, &'n [IssuerName])
    ensures signer { result.0 ≡ signer_by (prints_shown keys.now) (finding_value finding.now)
        (map name_value names.now) }
    ensures names { map name_value result.1.now
        ≡ names_behind (finding_value finding.now) (map name_value names.now) }
{
    let Finding::Asked { .. } = finding else {
        return (None, names);
    };
    let [name, more @ ..] = names else {
        return (None, names);
    };
    (keys.print_named(*name), more)
}
