//! How all parts of a keyring stand at a time.

ghost use Rattle.std.specs.Prelude.{◌≡◌, ◌++◌, ◌∷◌, [], List, IfOk, OnOk};
ghost use Rattle.std.specs.List.{flat_map};
ghost use Rattle.opgp_report.specs.declared.verifier.Verdict.{Verdict};
ghost use Rattle.opgp_valid.specs.Facts.{facts_value};
ghost use Rattle.opgp_valid.specs.KnownKeys.{knowns};
ghost use Rattle.opgp_valid.specs.Judgement.{facts_by};
ghost use Rattle.opgp_valid.specs.States.{states_of};
ghost use Rattle.opgp_state.specs.Claimed.{claims_of};
ghost use Rattle.opgp_state.specs.Claims.{certificate_claims};
ghost use Rattle.opgp_state.specs.KeyringStates.{causes_among, causes_if, causes_in};
ghost use Rattle.opgp_state.specs.KeyringStates.{keyring_causes, keyring_states, states_among};
ghost use Rattle.opgp_state.specs.KeyringStates.{states_in};

use crate::claims::own_claims;
use opgp_keyring::{Certificate, Keyring};
use opgp_octets::OutOfMemory;
use opgp_report::Verdict;
use opgp_valid::{
    Cause, Certified, Facts, KnownKeys, PartState, Policy, part_causes, part_states,
    verdicts_behind,
};
use std::alloc::Global;

/// How the parts of each certificate of a keyring stand at a time: of its primary key, and then of
/// each component, in order; and what makes each that is a key of no use, if that was wanted.
#[derive(Drop)]
pub struct KeyringStates {
    pub(crate) certificates: Vec<Vec<PartState>>,
    pub(crate) causes: Vec<Vec<Option<Cause>>>,
}

impl KeyringStates {
    /// How the parts of a keyring stand at a time, in seconds since 1970, by these verdicts on the
    /// rows of its report (those behind are left out; a row without one is undecided), and by this
    /// policy; with causes also what makes keys of no use. The work is linear in the keyring's
    /// octets, but that an issuer is found in time that grows with the logarithm of the number of
    /// keys.
    ///
    /// Fails only when out of memory.
    pub fn of(
        alloc: Global,
        keyring: &Keyring,
        verdicts: &[Verdict],
        policy: Policy,
        at: u64,
        causes: bool,
    ) -> Result<KeyringStates, OutOfMemory>
        ensures states { IfOk result (λ s.
            states_in s ≡ keyring_states keyring.now verdicts.now policy at) }
        ensures causes { IfOk result (λ s.
            causes_in s ≡ keyring_causes causes keyring.now verdicts.now policy at) }
    {
        let known = KnownKeys::of(alloc, keyring)?;
        let mut states = none_yet(alloc);
        let all = keyring.certificates();
        add_certificates(
            alloc,
            &mut states,
            &known,
            policy,
            all,
            verdicts,
            at,
            causes,
        )?;
        Ok(states)
    }

    /// The same by what the signatures of the keyring claim, as [`claimed_verdicts`] has it.
    /// Signatures of other keys on a certificate aren't hashed, where none of its own names a key
    /// that may revoke: there they say nothing.
    ///
    /// Fails only when out of memory.
    ///
    /// [`claimed_verdicts`]: crate::claimed_verdicts
    pub fn claimed(
        alloc: Global,
        keyring: &Keyring,
        policy: Policy,
        at: u64,
        causes: bool,
    ) -> Result<KeyringStates, OutOfMemory>
        ensures states { IfOk result (λ s.
            states_in s ≡ keyring_states keyring.now (claims_of keyring.now) policy at) }
        ensures causes { IfOk result (λ s.
            causes_in s ≡ keyring_causes causes keyring.now (claims_of keyring.now) policy at) }
    {
        let known = KnownKeys::of(alloc, keyring)?;
        let mut states = none_yet(alloc);
        let all = keyring.certificates();
        add_claimed(alloc, &mut states, &known, policy, all, at, causes)?;
        Ok(states)
    }
}

/// Those of no certificate.
fn none_yet(alloc: Global) -> KeyringStates
    ensures states { states_in result ≡ [] }
    ensures causes { causes_in result ≡ [] }
{
    KeyringStates {
        certificates: Vec::new(alloc),
        causes: Vec::new(alloc),
    }
}

/// What makes the keys of a certificate of no use, if that is wanted. Fails only when out of
/// memory.
fn certificate_causes(
    alloc: Global,
    facts: Facts<'_>,
    certificate: &Certificate,
    at: u64,
    wanted: bool,
) -> Result<Vec<Option<Cause>>, OutOfMemory>
    ensures { IfOk result (λ v. v.items
        ≡ causes_if wanted (facts_value facts.entry) certificate.now at) }
{
    if wanted {
        part_causes(alloc, facts, certificate, at)
    } else {
        Ok(Vec::new(alloc))
    }
}

/// Adds how the parts of a certificate stand, by the verdicts from its first row on. Fails only
/// when out of memory.
fn add_certificate(
    alloc: Global,
    states: &mut KeyringStates,
    known: &KnownKeys,
    policy: Policy,
    certificate: &Certificate,
    verdicts: &[Verdict],
    at: u64,
    causes: bool,
) -> Result<(), OutOfMemory>
    ensures states { OnOk result (states_in states.new ≡ states_in states.old
        ++ states_of (facts_by (knowns known.now) policy certificate.now verdicts.now)
        certificate.now at ∷ []) }
    ensures causes { OnOk result (causes_in states.new ≡ causes_in states.old
        ++ causes_if causes (facts_by (knowns known.now) policy certificate.now verdicts.now)
        certificate.now at ∷ []) }
{
    let certified = Certified::of(alloc, known, policy, certificate, verdicts)?;
    let parts = part_states(alloc, certified.facts(), certificate, at)?;
    let why = certificate_causes(alloc, certified.facts(), certificate, at, causes)?;
    states.certificates.push(parts)?;
    states.causes.push(why)?;
    Ok(())
}

/// Adds how the parts of certificates stand, by the verdicts from their first row on. Fails only
/// when out of memory.
fn add_certificates(
    alloc: Global,
    states: &mut KeyringStates,
    known: &KnownKeys,
    policy: Policy,
    certificates: &[Certificate],
    verdicts: &[Verdict],
    at: u64,
    causes: bool,
) -> Result<(), OutOfMemory>
    ensures states { OnOk result (states_in states.new ≡ states_in states.old
        ++ states_among (knowns known.now) policy at certificates.now verdicts.now) }
    ensures causes { OnOk result (causes_in states.new ≡ causes_in states.old
        ++ causes_among causes (knowns known.now) policy at certificates.now verdicts.now) }
{
    let mut found = verdicts;
    let mut rest = certificates;
    'certificates: while let Some((certificate, more)) = rest.split_first() {
        add_certificate(alloc, states, known, policy, certificate, found, at, causes)?;
        found = verdicts_behind(certificate, found);
        rest = more;
    }
    Ok(())
}

/// Adds how the parts of a certificate stand, by what its signatures claim. Fails only when out of
/// memory.
fn add_claimed_one(
    alloc: Global,
    states: &mut KeyringStates,
    known: &KnownKeys,
    policy: Policy,
    certificate: &Certificate,
    at: u64,
    causes: bool,
) -> Result<(), OutOfMemory>
    ensures states { OnOk result ((more : List Verdict) → states_in states.new
        ≡ states_in states.old ++ states_of (facts_by (knowns known.now) policy certificate.now
        (certificate_claims certificate.now ++ more)) certificate.now at ∷ []) }
    ensures causes { OnOk result ((more : List Verdict) → causes_in states.new
        ≡ causes_in states.old ++ causes_if causes (facts_by (knowns known.now) policy
        certificate.now (certificate_claims certificate.now ++ more)) certificate.now at ∷ []) }
{
    let verdicts = own_claims(alloc, certificate)?;
    let said = verdicts.as_slice();
    add_certificate(alloc, states, known, policy, certificate, said, at, causes)?;
    Ok(())
}

/// Adds how the parts of certificates stand, by what their signatures claim. Fails only when out of
/// memory.
fn add_claimed(
    alloc: Global,
    states: &mut KeyringStates,
    known: &KnownKeys,
    policy: Policy,
    certificates: &[Certificate],
    at: u64,
    causes: bool,
) -> Result<(), OutOfMemory>
    ensures states { OnOk result (states_in states.new ≡ states_in states.old
        ++ states_among (knowns known.now) policy at certificates.now
        (flat_map certificate_claims certificates.now)) }
    ensures causes { OnOk result (causes_in states.new ≡ causes_in states.old
        ++ causes_among causes (knowns known.now) policy at certificates.now
        (flat_map certificate_claims certificates.now)) }
{
    let mut rest = certificates;
    'certificates: while let Some((certificate, more)) = rest.split_first() {
        add_claimed_one(alloc, states, known, policy, certificate, at, causes)?;
        rest = more;
    }
    Ok(())
}
