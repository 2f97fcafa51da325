//! Certificates of which only bound components stay.

ghost use Rattle.std.specs.Prelude.{◌≡◌, IfOk, drop};
ghost use Rattle.opgp_keyring.specs.Keyring.{IsCertificate};
ghost use Rattle.opgp_report.specs.KeyIndex.{prints_shown};
ghost use Rattle.opgp_valid.specs.KnownKeys.{knowns};
ghost use Rattle.opgp_bound.specs.Bound.{bound_certificate, bound_keyring};
ghost use Rattle.opgp_bound.specs.Judged.{certificate_rows};

use crate::issuers::revocation_issuers;
use crate::keeping::keep;
use crate::role::Context;
use opgp_hash::Subject;
use opgp_keyring::{Certificate, Keyring};
use opgp_octets::OutOfMemory;
use opgp_report::{KeyIndex, Verdict, print_of};
use opgp_valid::KnownKeys;
use std::alloc::Global;

/// A certificate of which the bound components stay, by the verdicts from its first row on; and the
/// verdicts behind. Fails only when out of memory.
fn bound_certificate<'v>(
    alloc: Global,
    known: &KnownKeys,
    issuers: &KeyIndex,
    certificate: &Certificate,
    verdicts: &'v [Verdict],
) -> Result<(Certificate, &'v [Verdict]), OutOfMemory>
    ensures value { IfOk result (λ x. x.0 ≡ bound_certificate (knowns known.now)
        (prints_shown issuers.now) certificate.now verdicts.now) }
    ensures certificate { IfOk result (λ x. IsCertificate x.0) }
    ensures rest { IfOk result (λ x. x.1.now
        ≡ drop (certificate_rows certificate.now) verdicts.now) }
{
    let key = certificate.key();
    let context = Context {
        known,
        issuers,
        primary: print_of(&key),
    };
    let (hangs, rest) = context.judge_hangs(
        alloc,
        Subject::One(key),
        certificate.hangs(),
        verdicts,
    )?;
    let (components, rest) = context.judge_components(alloc, key, certificate.components(), rest)?;
    let kept = keep(alloc, certificate.primary(), &hangs, &components)?;
    Ok((kept, rest))
}

/// The keyring of whose certificates only bound components stay, and of self-signatures only
/// genuine ones, by these verdicts on the rows of its report (those behind are left out; a row
/// without one is undecided). What stays keeps its framing, and its order but for one sort of
/// packets.
///
/// - A *self-signature* is a certification, a subkey binding or a direct key signature (RFC 9580,
///   5.2.1.4 to 5.2.1.8, 5.2.1.10) that names the primary key of its certificate as its issuer. It
///   is *genuine* if the verdict on it is good, it is hashed over what it follows, and the first
///   key of the keyring that it names is the primary key. No signature of version 3 is.
/// - Genuine self-signatures stay, whatever they say and whatever time they state; others go.
/// - The primary key stays. A user ID, an attribute or a subkey stays if a genuine self-signature
///   is on it.
/// - A subkey also stays if a revocation is anywhere in the keyring whose verdict is good, and of
///   which the first key that it names has the subkey's fingerprint: without that key it would be
///   undecided. Revocations are of keys, subkeys or certifications (5.2.1.11 to 5.2.1.13).
/// - All other packets on what stays, stay: revocations, whatever the verdict on them, signatures
///   of others, malformed ones and fillers.
/// - Key revocations on a component that goes are put behind the packets on the primary key, in
///   their order: they are over that key alone, wherever they are (5.2.1.11, 5.2.4). All else on it
///   goes, too.
///
/// Neither a policy nor a time is asked, nor what is critical in a signature, nor the signature by
/// the subkey that its binding embeds (5.2.1.9).
///
/// Each key is hashed once, and a subkey once more; the rest of the work is linear in the keyring's
/// octets, but that an issuer is found in time that grows with the logarithm of the number of keys,
/// and a subkey with that of the number of revocations. What stays of a certificate is copied, and
/// then the certificate is freed. Fails only when out of memory.
pub fn keep_bound(
    alloc: Global,
    ring: Keyring,
    verdicts: &[Verdict],
) -> Result<Keyring, OutOfMemory>
    ensures { IfOk result (λ r. r ≡ bound_keyring ring verdicts.now) }
{
    let known = KnownKeys::of(alloc, &ring)?;
    let issuers = revocation_issuers(alloc, &known, &ring, verdicts)?;
    let (lead, certificates, _alloc) = ring.into_parts();
    let mut kept = Vec::new(alloc);
    let mut rest = verdicts;
    for certificate in certificates {
        let (bound, behind) = bound_certificate(alloc, &known, &issuers, &certificate, rest)?;
        kept.push(bound)?;
        rest = behind;
    }
    Ok(Keyring::new(alloc, lead, kept))
}
