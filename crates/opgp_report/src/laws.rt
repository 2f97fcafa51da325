//! What the definitions imply.

ghost use Rattle.std.specs.Prelude.{◌≡◌, ◌++◌, ℕ, filter, map, Some};
ghost use Rattle.std.specs.List.{slice_get};
ghost use Rattle.opgp_keyring.specs.Joining.{nth_of};
ghost use Rattle.opgp_keyring.specs.Keyring.{CertificateValue, KeyringValue, IsKeyring, flat};
ghost use Rattle.opgp_keyring.specs.Normal.{normal_of};
ghost use Rattle.opgp_report.specs.Asked.{asked_by, asked_of};
ghost use Rattle.opgp_report.specs.Fingerprinted.{fingerprinted_report_of};
ghost use Rattle.opgp_report.specs.Report.{Says, certificate_keys, keys_in, report_of};
ghost use Rattle.opgp_report.specs.Standing.{certificate_standing, hang_at, is_key, is_outer};
ghost use Rattle.opgp_report.specs.Standing.{is_signature};
ghost use Rattle.opgp_report.specs.Told.{asked_told, row_told};

/// The rows of a keyring's report, with any verifier, belong to its signatures, in the same order:
/// a row says why the signature isn't hashed, or the digest of its question.
pub fn rows_are_those_of_questions()
    ensures { (says : Says) (r : KeyringValue)
        → map row_told (report_of says r) ≡ map asked_told (asked_of r) }
{}

/// With fingerprints a keyring's report has the same rows.
#[tactic(auto, using(crate::proofs::Fingerprints::same_rows))]
pub fn fingerprints_change_no_row()
    ensures { (says : Says) (r : KeyringValue)
        → map (λ p. p.row) (fingerprinted_report_of says r) ≡ report_of says r }
{}

/// The rows that aren't of embedded signatures belong to the keyring's signature packets, in their
/// order: each packet has one row, which states the packet's place.
#[tactic(auto, using(crate::proofs::Standing::rows_stand))]
pub fn rows_stand_where_signatures_hang()
    ensures { (says : Says) (r : KeyringValue) → IsKeyring r
        → map (λ row. hang_at r row.place) (filter is_outer (report_of says r))
        ≡ map Some (filter is_signature (flat r)) }
{}

/// The keys of a keyring are those in its key and subkey packets, in order.
#[tactic(auto, using(crate::proofs::Scanning::packet_keys))]
pub fn keys_of_a_keyring_are_those_of_its_packets()
    ensures { (r : KeyringValue) → IsKeyring r
        → keys_in r ≡ map (λ p. p.body) (filter is_key (flat r)) }
{}

/// In the current format a keyring has the same report, with any verifier.
#[tactic(auto, using(crate::proofs::Rewriting::normal_rows))]
pub fn normal_keyrings_have_the_same_report()
    ensures { (says : Says) (r : KeyringValue) → report_of says (normal_of r) ≡ report_of says r }
{}

/// In the current format a keyring has the same questions and keys.
pub fn normal_keyrings_ask_the_same()
    ensures questions { (r : KeyringValue) → asked_of (normal_of r) ≡ asked_of r }
    ensures keys { (r : KeyringValue) → keys_in (normal_of r) ≡ keys_in r }
{}

/// A keyring whose packets are those of one, followed by those of another, has the questions and
/// the keys of both, in order.
pub fn joined_keyrings_ask_what_both_ask()
    ensures questions { (a b r : KeyringValue) → IsKeyring a → IsKeyring b → IsKeyring r
        → flat r ≡ flat a ++ flat b → asked_of r ≡ asked_of a ++ asked_of b }
    ensures keys { (a b r : KeyringValue) → IsKeyring a → IsKeyring b → IsKeyring r
        → flat r ≡ flat a ++ flat b → keys_in r ≡ keys_in a ++ keys_in b }
{}

/// A certificate alone has the questions and keys that it has in its keyring.
pub fn one_certificate_asks_the_same()
    ensures questions { (r s : KeyringValue) (c : CertificateValue) (n : ℕ)
        → slice_get r.certificates n ≡ Some c → nth_of r n ≡ Some s
        → asked_of s ≡ map asked_by (certificate_standing n c) }
    ensures keys { (r s : KeyringValue) (c : CertificateValue) (n : ℕ)
        → slice_get r.certificates n ≡ Some c → nth_of r n ≡ Some s
        → keys_in s ≡ certificate_keys c }
{}
