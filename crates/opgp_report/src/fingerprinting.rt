//! The report of a keyring whose certificates come one at a time, with fingerprints.

ghost use Rattle.std.specs.Prelude.{◌≡◌, ◌++◌, ◌∷◌, [], List, IfOk};

use crate::fingerprinted::FingerprintedReport;
use crate::reporting::Reporting;
use crate::row_maker::{RowMaker, sign_rows};
use crate::signers::print_of;
use opgp_hash::Fingerprint;
use opgp_keyring::Certificate;
use opgp_octets::OutOfMemory;
use std::alloc::Global;

/// A report in the making, as [`Reporting`] makes it, whose rows have fingerprints too. It keeps 33
/// octets more for a certificate, and up to twice that while these grow.
#[derive(Drop)]
pub struct FingerprintedReporting {
    pub(crate) reporting: Reporting,
    // Of the primary key of each certificate.
    pub(crate) primaries: Vec<Fingerprint>,
}

impl FingerprintedReporting {
    ghost use Rattle.opgp_keyring.specs.Keyring.{CertificateValue, KeyringValue};
    ghost use Rattle.opgp_report.specs.Fingerprinted.{fingerprinted_report_of};
    ghost use Rattle.opgp_report.specs.Fingerprinting.{ReportsPrints, fingerprinted_rows_of};
    ghost use Rattle.opgp_report.specs.Left.{says_left};

    /// The report of no certificates. Allocates nothing; additions do, from `alloc`.
    pub fn new(alloc: Global) -> FingerprintedReporting
        ensures { ReportsPrints result [] }
    {
        FingerprintedReporting {
            reporting: Reporting::new(alloc),
            primaries: Vec::new(alloc),
        }
    }

    /// With the next certificate of the keyring, as by [`Reporting::with`].
    ///
    /// Fails only when out of memory.
    pub fn with(self, certificate: &Certificate) -> Result<FingerprintedReporting, OutOfMemory>
        ensures { IfOk result (λ r. (cs : List CertificateValue) → ReportsPrints self cs
            → ReportsPrints r (cs ++ certificate.now ∷ [])) }
    {
        let FingerprintedReporting {
            reporting,
            mut primaries,
        } = self;
        let primary = print_of(&certificate.key());
        primaries.push(primary)?;
        let reporting = reporting.with_named(certificate, primary)?;
        Ok(FingerprintedReporting {
            reporting,
            primaries,
        })
    }

    /// The report of the keyring that has these certificates. Allocates nothing.
    pub fn report(self) -> FingerprintedReport
        ensures { (r : KeyringValue) → ReportsPrints self r.certificates
            → fingerprinted_rows_of result ≡ fingerprinted_report_of says_left r }
    {
        let FingerprintedReporting {
            reporting,
            primaries,
        } = self;
        let Reporting {
            keys,
            made,
            certificates: _,
        } = reporting;
        let RowMaker { mut rows, issuers } = made;
        sign_rows(&mut rows, &issuers, &keys);
        FingerprintedReport {
            rows,
            issuers,
            keys,
            primaries,
        }
    }
}
