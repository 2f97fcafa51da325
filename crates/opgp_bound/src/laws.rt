//! What the definitions imply.

ghost use Rattle.std.specs.Prelude.{◌≡◌, ◌⊎◌, ℕ, List, [], length, All, Some, slice_get, true};
ghost use Rattle.std.specs.Prelude.{false, is_some};
ghost use Rattle.std.specs.List.{Contains};
ghost use Rattle.opgp_octets.specs.declared.signature_type.SignatureType.{SignatureType};
ghost use Rattle.opgp_packet.specs.SignatureBody.{SignatureValue};
ghost use Rattle.opgp_hash.specs.SubjectValue.{SubjectValue};
ghost use Rattle.opgp_hash.specs.declared.fingerprints.Fingerprint.{Fingerprint};
ghost use Rattle.opgp_keyring.specs.Keyring.{CertificateValue, ComponentValue, IsKeyring};
ghost use Rattle.opgp_keyring.specs.Keyring.{KeyringValue};
ghost use Rattle.opgp_report.specs.Standing.{certificate_standing};
ghost use Rattle.opgp_report.specs.declared.verifier.Verdict.{Verdict};
ghost use Rattle.opgp_merge.specs.Merged.{merged_of, same_head, same_primary};
ghost use Rattle.opgp_valid.specs.KnownKeys.{known_in};
ghost use Rattle.opgp_valid.specs.Standing.{is_revoked};
ghost use Rattle.opgp_valid.specs.State.{identity_of, reason_of, unusable};
ghost use Rattle.opgp_valid.specs.declared.facts.Key.TheVariants.{Primary, Subkey};
ghost use Rattle.opgp_valid.specs.declared.known_keys.Known.{Known};
ghost use Rattle.opgp_valid.specs.declared.policy.Policy.{Policy};
ghost use Rattle.opgp_valid.specs.declared.state.IdentityState.TheVariants.{Certified};
ghost use Rattle.opgp_bound.specs.Before.{IsBoundOf, PutsNone, SaysSameAnywhere, StandsAs};
ghost use Rattle.opgp_bound.specs.Before.{components_decided, number_kept};
ghost use Rattle.opgp_bound.specs.Copies.{Deciding, facts_decided};
ghost use Rattle.opgp_bound.specs.Bound.{bound_certificate, bound_keyring, component_stays};
ghost use Rattle.opgp_bound.specs.Bound.{components_in, is_genuine, kept_component, own_in};
ghost use Rattle.opgp_bound.specs.Bound.{revokes, role_stays};
ghost use Rattle.opgp_bound.specs.Issuers.{revocation_issuers};
ghost use Rattle.opgp_bound.specs.Judged.{JudgedComponentValue, JudgedValue, certificate_rows};
ghost use Rattle.opgp_bound.specs.Role.{is_own_and_good, is_self_type, role_by};
ghost use Rattle.opgp_bound.specs.Staying.{HasOn};

/// What is bound of a keyring is a keyring.
pub fn bound_keyrings_are_keyrings()
    ensures { (r : KeyringValue) (verdicts : List Verdict) → IsKeyring r
        → IsKeyring (bound_keyring r verdicts) }
{}

/// A signature of a type that certifies or binds is a genuine self-signature exactly if the verdict
/// on it is good over what it follows, and the first key that it names is the primary key.
pub fn genuine_ones_are_own_and_good()
    ensures { (known : List Known) (primary : Fingerprint) (subject : SubjectValue)
        (found : Verdict) (v : SignatureValue) (t : SignatureType) → is_self_type t ≡ true
        → is_genuine (role_by known primary subject found v t)
        ≡ is_own_and_good known primary subject found v }
{}

/// No genuine self-signature goes: one on the primary key stays on it; one on a component stays on
/// that, which stays, too.
pub fn no_genuine_self_signature_goes()
    ensures primary { (known : List Known) (issuers : List Fingerprint) (c : CertificateValue)
        (verdicts : List Verdict) (j : JudgedValue) → Contains (own_in known c verdicts) j
        → is_genuine j.role ≡ true
        → Contains (bound_certificate known issuers c verdicts).hangs j.packet }
    ensures component { (known : List Known) (issuers : List Fingerprint) (c : CertificateValue)
        (verdicts : List Verdict) (d : JudgedComponentValue) (j : JudgedValue)
        → Contains (components_in known issuers c verdicts) d → Contains d.hangs j
        → is_genuine j.role ≡ true
        → HasOn (bound_certificate known issuers c verdicts) d.head j.packet }
{}

/// No revocation of a primary key goes, wherever it is: it stays on its component, or else on the
/// primary key. Nor does any other from a part that stays: all stays on it but self-signatures that
/// aren't genuine.
pub fn no_revocation_goes()
    ensures primary { (known : List Known) (issuers : List Fingerprint) (c : CertificateValue)
        (verdicts : List Verdict) (j : JudgedValue) → Contains (own_in known c verdicts) j
        → role_stays j.role ≡ true
        → Contains (bound_certificate known issuers c verdicts).hangs j.packet }
    ensures anywhere { (known : List Known) (issuers : List Fingerprint) (c : CertificateValue)
        (verdicts : List Verdict) (d : JudgedComponentValue) (j : JudgedValue)
        → Contains (components_in known issuers c verdicts) d → Contains d.hangs j
        → revokes j.role ≡ true
        → HasOn (bound_certificate known issuers c verdicts) d.head j.packet
        ⊎ Contains (bound_certificate known issuers c verdicts).hangs j.packet }
    ensures component { (known : List Known) (issuers : List Fingerprint) (c : CertificateValue)
        (verdicts : List Verdict) (d : JudgedComponentValue) (j : JudgedValue)
        → Contains (components_in known issuers c verdicts) d → component_stays d ≡ true
        → Contains d.hangs j → role_stays j.role ≡ true
        → HasOn (bound_certificate known issuers c verdicts) d.head j.packet }
{}

/// Every key that made a good revocation is still in the keyring, so that it can be verified as
/// before.
pub fn issuers_of_revocations_stay()
    ensures { (r : KeyringValue) (verdicts : List Verdict) (print : Fingerprint)
        → Contains (revocation_issuers r verdicts) print
        → (k : Known) × Contains (known_in (bound_keyring r verdicts)) k × (k.print ≡ print) }
{}

/// As many verdicts are taken of a certificate as it has rows in a report.
#[tactic(auto, using(crate::proofs::Rows::certificate_counted))]
pub fn verdicts_are_those_of_the_rows()
    ensures { (n : ℕ) (c : CertificateValue)
        → length (certificate_standing n c) ≡ certificate_rows c }
{}

/// Without verdicts no user ID, attribute or subkey stays.
pub fn nothing_is_bound_without_verdicts()
    ensures { (r : KeyringValue) → All (λ c. c.components ≡ []) (bound_keyring r []).certificates }
{}

/// Merging is careful: what revokes a key in one copy of its certificate revokes it in the merged
/// one, too, so that a key that is of use there is revoked in no copy. The verdicts go by what is
/// signed, and the keys that are known are the same. Of two keys with the same key ID it is the
/// first in the keyring that a key ID names (RFC 9580, 5.2.3.12).
pub fn merging_is_careful()
    ensures primary { (known : List Known) (policy : Policy) (v : Deciding) (r : KeyringValue)
        (c m : CertificateValue) → Contains r.certificates c
        → Contains (merged_of r).certificates m → same_primary c m ≡ true
        → is_revoked (facts_decided known policy v c) Primary ≡ true
        → is_revoked (facts_decided known policy v m) Primary ≡ true }
    ensures subkey { (known : List Known) (policy : Policy) (v : Deciding) (r : KeyringValue)
        (c m : CertificateValue) (n k created again : ℕ) (d e : ComponentValue)
        → Contains r.certificates c → Contains (merged_of r).certificates m
        → same_primary c m ≡ true → slice_get c.components n ≡ Some d
        → slice_get m.components k ≡ Some e → same_head d e ≡ true
        → is_revoked (facts_decided known policy v c) (Subkey n created) ≡ true
        → is_revoked (facts_decided known policy v m) (Subkey k again) ≡ true }
{}

/// What is bound of a certificate stands as before, by the same keys, and by verdicts that go by
/// what is hashed: the primary key; and each subkey, user ID and attribute that stays, by the number
/// that it gets. A key is believed for the same signatures, has the same state at each time, and the
/// same reasons of revocations. Only which of these comes first may change, where a key revocation
/// is put elsewhere. A subkey that goes was never of use, and nothing that goes was ever certified.
pub fn what_is_bound_stands_as_before()
    ensures primary { (policy : Policy) (v : Deciding) (r : KeyringValue) (c m : CertificateValue)
        → SaysSameAnywhere v → IsBoundOf v r c m
        → StandsAs (facts_decided (known_in r) policy v c) (facts_decided (known_in r) policy v m)
        Primary Primary }
    ensures number { (v : Deciding) (r : KeyringValue) (c m : CertificateValue) (n : ℕ)
        (d : JudgedComponentValue) → IsBoundOf v r c m
        → slice_get (components_decided v r c) n ≡ Some d → component_stays d ≡ true
        → slice_get m.components (number_kept (components_decided v r c) n)
        ≡ Some (kept_component d) }
    ensures subkey { (policy : Policy) (v : Deciding) (r : KeyringValue) (c m : CertificateValue)
        (n created : ℕ) (d : JudgedComponentValue) → SaysSameAnywhere v → IsBoundOf v r c m
        → slice_get (components_decided v r c) n ≡ Some d → component_stays d ≡ true
        → StandsAs (facts_decided (known_in r) policy v c) (facts_decided (known_in r) policy v m)
        (Subkey n created) (Subkey (number_kept (components_decided v r c) n) created) }
    ensures reason { (policy : Policy) (v : Deciding) (r : KeyringValue) (c m : CertificateValue)
        → IsBoundOf v r c m → PutsNone v r c
        → reason_of (facts_decided (known_in r) policy v c) Primary
        ≡ reason_of (facts_decided (known_in r) policy v m) Primary }
    ensures subkey_reason { (policy : Policy) (v : Deciding) (r : KeyringValue)
        (c m : CertificateValue) (n created : ℕ) (d : JudgedComponentValue) → IsBoundOf v r c m
        → slice_get (components_decided v r c) n ≡ Some d → component_stays d ≡ true
        → PutsNone v r c → reason_of (facts_decided (known_in r) policy v c) (Subkey n created)
        ≡ reason_of (facts_decided (known_in r) policy v m)
        (Subkey (number_kept (components_decided v r c) n) created) }
    ensures identity { (policy : Policy) (v : Deciding) (r : KeyringValue)
        (c m : CertificateValue) (n at : ℕ) (d : JudgedComponentValue) → IsBoundOf v r c m
        → slice_get (components_decided v r c) n ≡ Some d → component_stays d ≡ true
        → identity_of (facts_decided (known_in r) policy v c) n at
        ≡ identity_of (facts_decided (known_in r) policy v m)
        (number_kept (components_decided v r c) n) at }
    ensures usable { (policy : Policy) (v : Deciding) (r : KeyringValue) (c : CertificateValue)
        (n created at : ℕ) (d : JudgedComponentValue)
        → slice_get (components_decided v r c) n ≡ Some d → component_stays d ≡ false
        → is_some (unusable (facts_decided (known_in r) policy v c) (Subkey n created) at) ≡ true }
    ensures certified { (policy : Policy) (v : Deciding) (r : KeyringValue) (c : CertificateValue)
        (n at : ℕ) (d : JudgedComponentValue)
        → slice_get (components_decided v r c) n ≡ Some d → component_stays d ≡ false
        → identity_of (facts_decided (known_in r) policy v c) n at ≡ Certified → ⊥ }
{}
