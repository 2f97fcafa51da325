//! The report of a keyring.

ghost use Rattle.std.specs.Prelude.{◌≡◌, IfOk};
ghost use Rattle.opgp_report.specs.Report.{report_of};
ghost use Rattle.opgp_report.specs.Row.{report_rows};

use crate::report::Report;
use crate::reporter::Reporter;
use crate::signers::Signers;
use crate::verifier::Verifier;
use crate::walk::visit;
use opgp_keyring::Keyring;
use opgp_octets::OutOfMemory;
use std::alloc::Global;

/// The report of a keyring: a row for each signature of a certificate, in order, and after each
/// subkey binding signature (type 18, version 4 or 6) on a subkey a row for each signature embedded
/// in it, those of the hashed area first (RFC 9580, 5.2.4, 5.2.3.34).
///
/// A row says why the signature isn't hashed where it is; or its digest, the key ID of the first
/// key of the keyring that it names as its issuer, and the verdict of the verifier on the
/// signature, the digest and that key. Each key is hashed once for its fingerprint, and found in
/// time that grows with the logarithm of the number of keys. The verifier is called once for each
/// digest.
///
/// In version 4 each primary key, user ID, attribute and subkey is hashed once for each hash
/// algorithm that its signatures use. In version 6 each digest hashes them again, after its
/// signature's salt: there the time grows with the product of signatures and octets.
///
/// Fails only when out of memory.
pub fn check<V: Verifier>(
    alloc: Global,
    keyring: &Keyring,
    verifier: &V,
) -> Result<Report, OutOfMemory>
    ensures { IfOk result (λ r.
        report_rows r ≡ report_of (V.says verifier.now) keyring.now) }
{
    let signers = Signers::of(alloc, keyring)?;
    let mut reporter = Reporter::new(alloc, signers, verifier);
    visit(&mut reporter, keyring)?;
    Ok(Report {
        rows: reporter.rows,
    })
}
