//! The report of a keyring whose certificates come one at a time.

ghost use Rattle.std.specs.Prelude.{◌≡◌, ◌++◌, ◌∷◌, [], ◌≤◌, List, length, IfOk};
ghost use Rattle.opgp_report.specs.KeyIndex.{prints_shown};

use crate::key_index::KeyIndex;
use crate::report::Report;
use crate::row_maker::RowMaker;
use crate::signers::print_of;
use crate::walk::visit_certificate;
use opgp_hash::Fingerprint;
use opgp_keyring::Certificate;
use opgp_octets::OutOfMemory;
use std::alloc::Global;

/// A report in the making, with the verifier [`LeftOctets`](crate::LeftOctets), whose verdict
/// doesn't depend on the signer: what [`check`](crate::check) makes of a keyring, made of one
/// certificate after the other. It is for callers that don't keep the certificates.
///
/// It keeps a row for each signature, the name of the issuer of each that is hashed, and an index
/// of the certificates' keys, since a later key may be the issuer: some 165 octets for a signature
/// and 100 for a key, and up to twice that while these grow.
#[derive(Drop)]
pub struct Reporting {
    pub(crate) keys: KeyIndex,
    pub(crate) made: RowMaker,
    pub(crate) certificates: usize,
    ghost few: { certificates ≤ length (prints_shown keys) },
}

impl Reporting {
    ghost use Rattle.opgp_keyring.specs.Keyring.{CertificateValue, KeyringValue};
    ghost use Rattle.opgp_report.specs.First.{print_of};
    ghost use Rattle.opgp_report.specs.Left.{says_left};
    ghost use Rattle.opgp_report.specs.Report.{report_of};
    ghost use Rattle.opgp_report.specs.Reporting.{Reports};
    ghost use Rattle.opgp_report.specs.Row.{report_rows};

    /// The report of no certificates. Allocates nothing; additions do, from `alloc`.
    pub fn new(alloc: Global) -> Reporting
        ensures { Reports result [] }
    {
        Reporting {
            keys: KeyIndex::new(alloc),
            made: RowMaker::new(alloc),
            certificates: 0,
        }
    }

    /// With the next certificate of the keyring. Each of its keys is hashed once for its
    /// fingerprint, and its signatures are hashed as by [`check`](crate::check).
    ///
    /// Fails only when out of memory.
    pub fn with(self, certificate: &Certificate) -> Result<Reporting, OutOfMemory>
        ensures { IfOk result (λ r. (cs : List CertificateValue) → Reports self cs
            → Reports r (cs ++ certificate.now ∷ [])) }
    {
        self.with_named(certificate, print_of(&certificate.key()))
    }

    /// The same, where this is the fingerprint of the certificate's primary key. Fails only when
    /// out of memory.
    pub(crate) fn with_named(
        self,
        certificate: &Certificate,
        primary: Fingerprint,
    ) -> Result<Reporting, OutOfMemory>
        requires { primary ≡ print_of certificate.now.primary.body }
        ensures { IfOk result (λ r. (cs : List CertificateValue) → Reports self cs
            → Reports r (cs ++ certificate.now ∷ [])) }
    {
        let Reporting {
            keys,
            mut made,
            certificates,
        } = self;
        let keys = keys.with_named(certificate, primary)?;
        visit_certificate(&mut made, certificates, certificate)?;
        // Called for its contract: there are at least as many keys.
        let _keys = keys.len();
        Ok(Reporting {
            keys,
            made,
            certificates: certificates + 1,
        })
    }

    /// The report of the keyring that has these certificates. Allocates nothing.
    pub fn report(self) -> Report
        ensures { (r : KeyringValue) → Reports self r.certificates
            → report_rows result ≡ report_of says_left r }
    {
        let Reporting {
            keys,
            made,
            certificates: _,
        } = self;
        Report {
            rows: made.signed(&keys),
        }
    }
}
