//! What the definitions of what is heard at a time imply.

ghost use Rattle.std.specs.Prelude.{◌≡◌, ◌≤◌, ◌++◌, ℕ, List, Bool, Option, Ok, All, drop, length};
ghost use Rattle.std.specs.Prelude.{Some, true, false, map, slice_get};
ghost use Rattle.std.specs.List.{filter};
ghost use Rattle.opgp_octets.specs.declared.signature_type.SignatureType.{SignatureType};
ghost use Rattle.opgp_frame.specs.Packet.{PacketValue};
ghost use Rattle.opgp_packet.specs.SignatureBody.{SignatureValue, signature_at};
ghost use Rattle.opgp_hash.specs.SubjectValue.{SubjectValue};
ghost use Rattle.opgp_hash.specs.declared.fingerprints.Fingerprint.{Fingerprint};
ghost use Rattle.opgp_keyring.specs.Keyring.{CertificateValue, IsKeyring, KeyringValue};
ghost use Rattle.opgp_report.specs.declared.place.Place.{Place};
ghost use Rattle.opgp_report.specs.declared.verifier.Verdict.{Verdict};
ghost use Rattle.opgp_valid.specs.Judgement.{facts_by, rows_in, verdicts_from};
ghost use Rattle.opgp_valid.specs.KnownKeys.{known_in};
ghost use Rattle.opgp_valid.specs.Laws.{with_statements};
ghost use Rattle.opgp_valid.specs.State.{identity_of, state_of};
ghost use Rattle.opgp_valid.specs.Told.{stated};
ghost use Rattle.opgp_valid.specs.declared.facts.Key.{Key};
ghost use Rattle.opgp_valid.specs.declared.known_keys.Known.{Known};
ghost use Rattle.opgp_valid.specs.declared.policy.Policy.TheVariants.{Usual};
ghost use Rattle.opgp_valid.specs.declared.statement.Statement.{Statement};
ghost use Rattle.opgp_bound.specs.Judged.{certificate_rows, judged, judged_hangs, rows_on};
ghost use Rattle.opgp_bound.specs.Newest.{certificate_verdicts, newest_certificate, newest_hangs};
ghost use Rattle.opgp_bound.specs.Newest.{newest_keyring, newest_made, newest_rows, newest_stays};
ghost use Rattle.opgp_bound.specs.Newest.{newest_verdicts};
ghost use Rattle.opgp_bound.specs.Outdated.{AreOnParts, AreOutdated, is_outdated, without};

/// What stays of a keyring is a keyring.
pub fn newest_keyrings_are_keyrings()
    ensures { (r : KeyringValue) (verdicts : List Verdict) (at : ℕ) → IsKeyring r
        → IsKeyring (newest_keyring r verdicts at) }
{}

/// What stays on a key, user ID or attribute is what it was, by the verdicts that are handed on:
/// each is there for the same as before, and those behind are for what comes next. There is a
/// verdict for each row.
pub fn what_stays_is_judged_as_before()
    ensures judged { (newest : SignatureType → Option ℕ) (known : List Known)
        (primary : Fingerprint) (subject : SubjectValue) (ps : List PacketValue)
        (verdicts more : List Verdict) → rows_on subject ps ≤ length verdicts
        → judged_hangs known primary subject
        (newest_hangs newest known primary subject ps verdicts)
        (newest_rows newest known primary subject ps verdicts ++ more)
        ≡ filter (newest_stays newest) (judged_hangs known primary subject ps verdicts) }
    ensures rest { (newest : SignatureType → Option ℕ) (known : List Known)
        (primary : Fingerprint) (subject : SubjectValue) (ps : List PacketValue)
        (verdicts more : List Verdict) → rows_on subject ps ≤ length verdicts
        → drop (rows_on subject (newest_hangs newest known primary subject ps verdicts))
        (newest_rows newest known primary subject ps verdicts ++ more) ≡ more }
{}

/// A signature that goes says only what is outdated: a newer one of its sort counts at the time, on
/// the same key, user ID or attribute.
pub fn what_goes_is_outdated()
    ensures { (at : ℕ) (ss : List Statement) (known : List Known) (primary : Fingerprint)
        (revokers : List Fingerprint) (place : Place) (subject : SubjectValue) (found : Verdict)
        (p : PacketValue) (v : SignatureValue)
        → newest_stays (newest_made at ss place.component)
        (judged known primary subject found p) ≡ false
        → signature_at p.body ≡ Ok v
        → All (λ s. is_outdated at ss s ≡ true)
        (stated known Usual primary revokers place subject v) }
{}

/// What is outdated at a time isn't heard then: where such goes, each key stands as before, and so
/// does each user ID and attribute.
pub fn what_is_outdated_is_not_heard()
    ensures key { (at version created : ℕ) (ss : List Statement) (goes : Statement → Bool)
        (is_user_id : Option ℕ → Bool) (k : Key) → AreOutdated at ss goes
        → AreOnParts is_user_id ss
        → state_of (with_statements version created (without goes ss)) k at
        ≡ state_of (with_statements version created ss) k at }
    ensures identity { (at version created : ℕ) (ss : List Statement)
        (goes : Statement → Bool) (is_user_id : Option ℕ → Bool) (n : ℕ)
        → AreOutdated at ss goes → AreOnParts is_user_id ss
        → identity_of (with_statements version created (without goes ss)) n at
        ≡ identity_of (with_statements version created ss) n at }
{}

/// What stays of a certificate stands as before at the time, by the verdicts that are handed on,
/// whatever comes behind them. It has the same parts, each key has the same state, and so has each
/// user ID and attribute. The same keys are known, and there is a verdict for each row.
pub fn newest_certificates_stand_as_before()
    ensures parts { (at : ℕ) (known : List Known) (c : CertificateValue)
        (verdicts : List Verdict)
        → map (λ d. d.head) (newest_certificate at known c verdicts).components
        ≡ map (λ d. d.head) c.components }
    ensures key { (at : ℕ) (known : List Known) (c : CertificateValue)
        (verdicts more : List Verdict) (k : Key) → certificate_rows c ≤ length verdicts
        → state_of (facts_by known Usual (newest_certificate at known c verdicts)
        (certificate_verdicts at known c verdicts ++ more)) k at
        ≡ state_of (facts_by known Usual c verdicts) k at }
    ensures identity { (at : ℕ) (known : List Known) (c : CertificateValue)
        (verdicts more : List Verdict) (n : ℕ) → certificate_rows c ≤ length verdicts
        → identity_of (facts_by known Usual (newest_certificate at known c verdicts)
        (certificate_verdicts at known c verdicts ++ more)) n at
        ≡ identity_of (facts_by known Usual c verdicts) n at }
{}

/// So does each certificate of what stays of a keyring, by the verdicts on its own rows. The same
/// keys are known.
pub fn newest_keyrings_stand_as_before()
    ensures known { (r : KeyringValue) (verdicts : List Verdict) (at : ℕ)
        → known_in (newest_keyring r verdicts at) ≡ known_in r }
    ensures key { (r : KeyringValue) (verdicts : List Verdict) (at i : ℕ)
        (c m : CertificateValue) (k : Key) → length (rows_in r.certificates) ≤ length verdicts
        → slice_get r.certificates i ≡ Some c
        → slice_get (newest_keyring r verdicts at).certificates i ≡ Some m
        → state_of (facts_by (known_in (newest_keyring r verdicts at)) Usual m
        (verdicts_from (newest_keyring r verdicts at).certificates i
        (newest_verdicts r verdicts at))) k at
        ≡ state_of (facts_by (known_in r) Usual c (verdicts_from r.certificates i verdicts)) k at }
    ensures identity { (r : KeyringValue) (verdicts : List Verdict) (at i : ℕ)
        (c m : CertificateValue) (n : ℕ) → length (rows_in r.certificates) ≤ length verdicts
        → slice_get r.certificates i ≡ Some c
        → slice_get (newest_keyring r verdicts at).certificates i ≡ Some m
        → identity_of (facts_by (known_in (newest_keyring r verdicts at)) Usual m
        (verdicts_from (newest_keyring r verdicts at).certificates i
        (newest_verdicts r verdicts at))) n at
        ≡ identity_of (facts_by (known_in r) Usual c
        (verdicts_from r.certificates i verdicts)) n at }
{}
