//! What the rule implies of the order of a certificate's parts, and the definitions of places, of
//! files of verdicts and of dates.

ghost use Rattle.std.specs.Prelude.{◌≡◌, ◌<◌, ◌∷◌, ◌++◌, ℕ, List, length, map, slice_get};
ghost use Rattle.std.specs.List.Sorted.{IsPermutation};
ghost use Rattle.sha2.specs.Sha256.{sha256};
ghost use Rattle.opgp_frame.specs.Packet.{packets_octets};
ghost use Rattle.opgp_keyring.specs.Keyring.{CertificateValue, KeyringValue, flat};
ghost use Rattle.opgp_report.specs.Report.{Says, report_of};
ghost use Rattle.opgp_report.specs.Standing.{hang_at};
ghost use Rattle.opgp_report.specs.declared.verifier.Verdict.{Verdict};
ghost use Rattle.opgp_valid.specs.Standing.{standing_of};
ghost use Rattle.opgp_valid.specs.declared.facts.Key.TheVariants.{Primary, Subkey};
ghost use Rattle.opgp_valid.specs.declared.known_keys.Known.{Known};
ghost use Rattle.opgp_valid.specs.declared.policy.Policy.{Policy};
ghost use Rattle.opgp_state.specs.Date.{DateValue, IsDate, clock_text, date_of, date_text};
ghost use Rattle.opgp_state.specs.Date.{day_text, days_before, time_of, year_10000};
ghost use Rattle.opgp_state.specs.Places.{places_of};
ghost use Rattle.opgp_state.specs.Reordered.{AreJudged, Judged, facts_with};
ghost use Rattle.opgp_state.specs.VerdictFile.{HasVerdicts};

/// The user IDs, user attributes and subkeys of a certificate in another order, each with its own
/// signatures and the verdicts on them, change nothing: the primary key stands as before, and so
/// does a subkey at each time, wherever it stands among the others.
///
/// The keys that are known are the same in both orders. Of two keys with the same key ID it is the
/// first in the keyring that a key ID names (RFC 9580, 5.2.3.12).
pub fn order_of_components_changes_nothing()
    ensures primary { (known : List Known) (policy : Policy) (c : CertificateValue)
        (founds : List Verdict) (parts others : List Judged) (made now : ℕ)
        → AreJudged c founds parts → IsPermutation parts others
        → standing_of (facts_with known policy c founds parts) Primary made now
        ≡ standing_of (facts_with known policy c founds others) Primary made now }
    ensures subkey { (known : List Known) (policy : Policy) (c : CertificateValue)
        (founds : List Verdict) (x : Judged) (before behind before_it behind_it : List Judged)
        (created made now : ℕ) → AreJudged c founds (before ++ x ∷ behind)
        → IsPermutation (before ++ behind) (before_it ++ behind_it)
        → standing_of (facts_with known policy c founds (before ++ x ∷ behind))
        (Subkey (length before) created) made now
        ≡ standing_of (facts_with known policy c founds (before_it ++ x ∷ behind_it))
        (Subkey (length before_it) created) made now }
{}

/// The packet of a row's place is the one that the row's signature is in, or that the signature is
/// embedded in: the rows of a keyring's report, with any verifier, have these places, in order.
#[tactic(auto, using(crate::proofs::PlacesStand::packets_there))]
pub fn packets_of_places_are_those_of_rows()
    ensures { (says : Says) (r : KeyringValue)
        → map (λ p. slice_get (flat r) p.packet) (places_of r)
        ≡ map (λ row. hang_at r row.place) (report_of says r) }
{}

/// A file of verdicts is of one keyring, unless the packets of two have the same SHA2-256, and it
/// has one list of verdicts on that keyring.
pub fn file_of_verdicts_is_of_one_keyring()
    ensures digest { (file : List ℕ) (r s : KeyringValue) (v w : List Verdict)
        → HasVerdicts file r v → HasVerdicts file s w
        → sha256 (packets_octets (flat r)) ≡ sha256 (packets_octets (flat s)) }
    ensures once { (file : List ℕ) (r : KeyringValue) (v w : List Verdict)
        → HasVerdicts file r v → HasVerdicts file r w → v ≡ w }
{}

/// The date so many days after 1970-01-01 is a day of the calendar, and so many days lie before it,
/// in whole years, whole months and its own month; each day from 1970 on is found by their number.
pub fn days_count_dates()
    ensures counted { (n : ℕ) → IsDate (date_of n) × (days_before (date_of n) ≡ n) }
    ensures found { (d : DateValue) → IsDate d → date_of (days_before d) ≡ d }
{}

/// The time of a date, an hour, a minute and a second is written as these.
pub fn a_time_is_written_as_its_date()
    ensures { (d : DateValue) (hour minute second : ℕ)
        → IsDate d → hour < 24 → minute < 60 → second < 60
        → date_text (time_of d hour minute second) ≡ day_text d ++ clock_text hour minute second }
{}

/// Two times before the year 10000 are never written as one date.
pub fn a_date_is_that_of_one_time()
    ensures { (a b : ℕ) → a < year_10000 → b < year_10000 → date_text a ≡ date_text b → a ≡ b }
{}
