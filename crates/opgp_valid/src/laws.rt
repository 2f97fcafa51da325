//! Theorems about when a key is believed.

ghost use Rattle.std.specs.Prelude.{◌≡◌, ◌⊎◌, ◌↔◌, ◌∷◌, ◌++◌, ℕ, List, [], All, Some, None};
ghost use Rattle.std.specs.Prelude.{true, false};
ghost use Rattle.std.specs.List.{Contains, filter, flat_map, fold};
ghost use Rattle.std.specs.List.Sorted.{IsPermutation};
ghost use Rattle.opgp_hash.specs.declared.fingerprints.Fingerprint.{Fingerprint};
ghost use Rattle.opgp_report.specs.Standing.{Standing};
ghost use Rattle.opgp_report.specs.declared.verifier.Verdict.{Verdict};
ghost use Rattle.opgp_report.specs.Standing.{certificate_standing};
ghost use Rattle.opgp_keyring.specs.Keyring.{CertificateValue};
ghost use Rattle.std.specs.Option.{option_map};
ghost use Rattle.opgp_valid.specs.Cause.{cause_of};
ghost use Rattle.opgp_valid.specs.Judgement.{facts_by};
ghost use Rattle.opgp_valid.specs.Laws.{IsAmong, IsByKnown, has_good_verdict, own_verdicts};
ghost use Rattle.opgp_valid.specs.Laws.{with_statements};
ghost use Rattle.opgp_valid.specs.State.{identity_of, state_of, unusable, uses_at};
ghost use Rattle.opgp_valid.specs.Statement.{is_alive};
ghost use Rattle.opgp_valid.specs.Speaking.{newest};
ghost use Rattle.opgp_valid.specs.Standing.{is_revoked, revokes, standing_of};
ghost use Rattle.opgp_valid.specs.Stands.{IsNewest, Stands};
ghost use Rattle.opgp_valid.specs.Told.{is_good_verdict, revokers_at, told, with_verdicts};
ghost use Rattle.opgp_valid.specs.Facts.{FactsValue};
ghost use Rattle.opgp_valid.specs.declared.facts.Key.{Key};
ghost use Rattle.opgp_valid.specs.declared.group.Group.{Group};
ghost use Rattle.opgp_valid.specs.declared.known_keys.Known.{Known};
ghost use Rattle.opgp_valid.specs.declared.policy.Policy.{Policy};
ghost use Rattle.opgp_valid.specs.declared.statement.Statement.{Statement};
ghost use Rattle.opgp_valid.specs.declared.why.Why.{Why};
ghost use Rattle.opgp_valid.specs.declared.why.Why.TheVariants.{Future, Revoked};

/// A revoked key is never believed, whatever else is said of it, and whenever.
pub fn a_revoked_key_stands_never()
    ensures { (f : FactsValue) (k : Key) (made now : ℕ) → is_revoked f k ≡ true
        → (standing_of f k made now ≡ Some Future) ⊎ (standing_of f k made now ≡ Some Revoked) }
{}

/// A revoked key stays revoked if more is said, older or newer: what a certificate says in more
/// signatures never lets it be believed again.
#[tactic(auto, using(crate::proofs::Among::passed_among))]
pub fn more_signatures_never_help_a_revoked_key()
    ensures { (f g : FactsValue) (k : Key) → IsAmong f.statements g.statements
        → is_revoked f k ≡ true → is_revoked g k ≡ true }
{}

/// A row whose verdict isn't good says nothing, and names no key that may revoke: what is said is
/// what the rows with good verdicts say.
#[tactic(auto, using(crate::proofs::Verdicts::good_says, crate::proofs::Verdicts::good_names))]
pub fn what_isnt_good_says_nothing()
    ensures one { (known : List Known) (policy : Policy) (primary : Fingerprint)
        (revokers : List Fingerprint) (before : List Statement) (s : Standing) (found : Verdict)
        → is_good_verdict found ≡ false
        → told known policy primary revokers before (s, found) ≡ before }
    ensures revoker { (known : List Known) (primary : Fingerprint) (s : Standing)
        (found : Verdict) → is_good_verdict found ≡ false
        → revokers_at known primary (s, found) ≡ [] }
    ensures all { (known : List Known) (policy : Policy) (primary : Fingerprint)
        (revokers : List Fingerprint) (before : List Statement)
        (rows : List (Standing × Verdict))
        → fold (told known policy primary revokers) before rows
        ≡ fold (told known policy primary revokers) before (filter has_good_verdict rows) }
    ensures revokers { (known : List Known) (primary : Fingerprint)
        (rows : List (Standing × Verdict)) → flat_map (revokers_at known primary) rows
        ≡ flat_map (revokers_at known primary) (filter has_good_verdict rows) }
{}

/// What is said decides, and not the order in which it is said, nor how often: certificates whose
/// signatures say the same have the same standing.
#[tactic(auto, using(crate::proofs::Orders::same_order, crate::proofs::Orders::same_members))]
pub fn order_changes_nothing()
    ensures order { (f g : FactsValue) (k : Key) (made now : ℕ) → f.version ≡ g.version
        → f.created ≡ g.created → IsPermutation f.statements g.statements
        → standing_of f k made now ≡ standing_of g k made now }
    ensures repetition { (f g : FactsValue) (k : Key) (made now : ℕ) → f.version ≡ g.version
        → f.created ≡ g.created → IsAmong f.statements g.statements
        → IsAmong g.statements f.statements
        → standing_of f k made now ≡ standing_of g k made now }
{}

/// Those that are newest of a group at a time are those that speak then, where none that speaks was
/// made later (RFC 9580, 5.2.3.10).
pub fn newest_is_newest()
    ensures { (group : Group) (at : ℕ) (ss : List Statement) (s : Statement)
        → Contains (newest group at ss) s ↔ IsNewest group at ss s }
{}

/// A key is believed if and only if each of the facts of the rule holds.
pub fn standing_is_stands()
    ensures { (f : FactsValue) (k : Key) (made now : ℕ)
        → (standing_of f k made now ≡ None) ↔ Stands f k made now }
{}

/// A state says what a judgement does: a key is believed for a signature of one time exactly if it
/// is of use then, and may sign; and if it is of no use, both have the same reason.
pub fn state_says_what_judge_says()
    ensures believed { (f : FactsValue) (k : Key) (at : ℕ) → (standing_of f k at at ≡ None)
        ↔ ((unusable f k at ≡ None) × ((uses_at f k at).sign ≡ true)) }
    ensures reason { (f : FactsValue) (k : Key) (at : ℕ) (why : Why)
        → unusable f k at ≡ Some why → standing_of f k at at ≡ Some why }
{}

/// Outside of its window a signature says nothing: one that counts neither when a signature over a
/// document was made nor now, and doesn't revoke the key, changes no answer.
pub fn outside_its_window_it_says_nothing()
    ensures { (version created : ℕ) (before behind : List Statement) (s : Statement) (k : Key)
        (made now : ℕ) → is_alive made s ≡ false → is_alive now s ≡ false → revokes k s ≡ false
        → standing_of (with_statements version created (before ++ s ∷ behind)) k made now
        ≡ standing_of (with_statements version created (before ++ behind)) k made now }
{}

/// More certificates behind those that are known change nothing, where each signature that is found
/// good names a key that is known: what a certificate's signatures say is the same.
pub fn other_certificates_change_nothing()
    ensures { (known more : List Known) (policy : Policy) (c : CertificateValue)
        (founds : List Verdict)
        → All (IsByKnown known) (with_verdicts founds (certificate_standing 0 c))
        → facts_by (known ++ more) policy c founds ≡ facts_by known policy c founds }
{}

/// What other keys certify says nothing: where nothing is decided of it, whatever a verifier found,
/// each key stands as before, and so does each user ID and attribute.
pub fn others_certifications_say_nothing()
    ensures believed { (known : List Known) (policy : Policy) (c : CertificateValue)
        (founds : List Verdict) (k : Key) (made now : ℕ)
        → standing_of (facts_by known policy c (own_verdicts known c founds)) k made now
        ≡ standing_of (facts_by known policy c founds) k made now }
    ensures key { (known : List Known) (policy : Policy) (c : CertificateValue)
        (founds : List Verdict) (k : Key) (at : ℕ)
        → state_of (facts_by known policy c (own_verdicts known c founds)) k at
        ≡ state_of (facts_by known policy c founds) k at }
    ensures identity { (known : List Known) (policy : Policy) (c : CertificateValue)
        (founds : List Verdict) (n at : ℕ)
        → identity_of (facts_by known policy c (own_verdicts known c founds)) n at
        ≡ identity_of (facts_by known policy c founds) n at }
{}

/// A cause has the reason for which a key isn't believed, and there is one exactly if it isn't.
pub fn a_cause_has_its_reason()
    ensures { (f : FactsValue) (k : Key) (made now : ℕ)
        → option_map (λ c. c.why) (cause_of f k made now) ≡ standing_of f k made now }
{}
