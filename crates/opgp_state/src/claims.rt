//! What the signatures of a keyring claim.

ghost use Rattle.std.specs.Prelude.{◌≡◌, map, IfOk};
ghost use Rattle.std.specs.List.{list_any};
ghost use Rattle.opgp_report.specs.Standing.{certificate_standing};
ghost use Rattle.opgp_state.specs.Claimed.{claims_of};
ghost use Rattle.opgp_state.specs.Claiming.{claim_heard, names_some};
ghost use Rattle.opgp_state.specs.Claims.{SayTheSame};

use crate::claiming::Claiming;
use opgp_hash::Fingerprint;
use opgp_keyring::{Certificate, Keyring};
use opgp_octets::OutOfMemory;
use opgp_report::{Verdict, print_of, visit, visit_certificate};
use std::alloc::Global;

/// What the signatures of a keyring claim, a verdict for each row of its report: a signature is
/// good, but bad if its digest doesn't begin with the octets that it states (RFC 9580, 5.2.3).
/// Nothing is verified. One that isn't hashed where it is says nothing by that, unless it revokes
/// the primary key (5.2.1.11).
///
/// Fails only when out of memory.
pub fn claimed_verdicts(alloc: Global, keyring: &Keyring) -> Result<Vec<Verdict>, OutOfMemory>
    ensures { IfOk result (λ v. v.items ≡ claims_of keyring.now) }
{
    let mut claiming = Claiming::new(alloc, None);
    visit(&mut claiming, keyring)?;
    let Claiming { verdicts, .. } = claiming;
    Ok(verdicts)
}

/// What the signatures of a certificate claim on which it is looked at. Fails only when out of
/// memory.
fn claims_heard(
    alloc: Global,
    certificate: &Certificate,
    own: Option<Fingerprint>,
) -> Result<Claiming, OutOfMemory>
    ensures verdicts { IfOk result (λ c. c.verdicts.items
        ≡ map (claim_heard own) (certificate_standing 0 certificate.now)) }
    ensures revokers { IfOk result (λ c. c.names_revokers
        ≡ list_any (names_some own) (certificate_standing 0 certificate.now)) }
{
    let mut claiming = Claiming::new(alloc, own);
    visit_certificate(&mut claiming, 0, certificate)?;
    Ok(claiming)
}

/// Verdicts on the rows of a certificate that serve as well as what all its signatures claim. Where
/// none of its own signatures names a key that may revoke, those of other keys say nothing: then
/// they aren't hashed. Fails only when out of memory.
pub(crate) fn own_claims(
    alloc: Global,
    certificate: &Certificate,
) -> Result<Vec<Verdict>, OutOfMemory>
    ensures { IfOk result (λ v. SayTheSame certificate.now v.items) }
{
    let primary = print_of(&certificate.key());
    let own = claims_heard(alloc, certificate, Some(primary))?;
    if !own.names_revokers {
        let Claiming { verdicts, .. } = own;
        return Ok(verdicts);
    }
    let Claiming { verdicts, .. } = claims_heard(alloc, certificate, None)?;
    Ok(verdicts)
}
