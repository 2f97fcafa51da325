//! The report of a keyring with fingerprints, made as its certificates come.

ghost use Rattle.std.specs.Prelude.{◌++◌, ◌∷◌, [], List, OnOk};
ghost use Rattle.opgp_keyring.specs.Composed.{PartValue};
ghost use Rattle.opgp_keyring.specs.Keyring.{KeyringValue};
ghost use Rattle.opgp_keyring.specs.State.{part_of};
ghost use Rattle.opgp_report.specs.Fingerprinting.{ReportsPrints};
ghost use Rattle.opgp_stack.specs.OnePart.{certificates_in};
ghost use Rattle.opgp_state.specs.Report.{HasFingerprintedReport};

use opgp_keyring::Ready;
use opgp_octets::OutOfMemory;
use opgp_report::{FingerprintedReport, FingerprintedReporting};
use std::alloc::Global;
use std::mem;

/// The rows of the certificates that came so far, and what their keys are found by. No certificate
/// is kept.
#[derive(Drop)]
pub(crate) struct CheckingFingerprints {
    alloc: Global,
    rows: FingerprintedReporting,
}

impl CheckingFingerprints {
    /// No rows yet. Allocates nothing.
    pub(crate) fn new(alloc: Global) -> CheckingFingerprints
        ensures { ReportsPrints result.rows [] }
    {
        CheckingFingerprints {
            alloc,
            rows: FingerprintedReporting::new(alloc),
        }
    }

    /// Adds the rows of the next part, if it is a certificate, and gives it back, so that the next
    /// one may use its memory. Fails only when out of memory; nothing is known of the rows then.
    pub(crate) fn keep(&mut self, part: Ready) -> Result<Option<Ready>, OutOfMemory>
        ensures { OnOk result ((parts : List PartValue)
            → ReportsPrints self.old.rows (certificates_in parts)
            → ReportsPrints self.new.rows (certificates_in (parts ++ part_of part ∷ []))) }
    {
        let Some(certificate) = part.certificate() else {
            return Ok(None);
        };
        let rows = mem::replace(&mut self.rows, FingerprintedReporting::new(self.alloc));
        let rows = rows.with(&certificate);
        drop(mem::replace(&mut self.rows, rows?));
        Ok(Some(Ready::Certificate(certificate)))
    }

    /// The report of the keyring that has the certificates that came.
    pub(crate) fn report(self) -> FingerprintedReport
        ensures { (r : KeyringValue) → ReportsPrints self.rows r.certificates
            → HasFingerprintedReport r result }
    {
        self.rows.report()
    }
}
