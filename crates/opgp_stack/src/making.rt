//! What an action makes of a keyring, as its parts come.

ghost use Rattle.std.specs.Prelude.{◌≡◌, ◌++◌, ◌∷◌, [], List, true, IfOk, IfSome, OnOk};
ghost use Rattle.opgp_codec.specs.Draft.{DraftHas};
ghost use Rattle.opgp_keyring.specs.Composed.{PartValue};
ghost use Rattle.opgp_keyring.specs.Parts.{AreParts, HasParts};
ghost use Rattle.opgp_keyring.specs.State.{part_of};
ghost use Rattle.opgp_stack.specs.Making.{HasMade, HasTexts, is_of_parts};
ghost use Rattle.opgp_stack.specs.declared.keyring_text.KeyringText.{KeyringText};
ghost use Rattle.opgp_stack.specs.declared.making.Making.TheVariants as making;
ghost use Rattle.opgp_stack.specs.declared.task.Action.{Action};

use crate::all_octets::AllOctets;
use crate::checking::Checking;
use crate::checking_fingerprints::CheckingFingerprints;
use crate::checking_places::CheckingPlaces;
use crate::keyring_text::KeyringText;
use crate::named_certificates::NamedCertificates;
use crate::nth_certificate::NthCertificate;
use crate::part_text::PartText;
use crate::row_found::RowFound;
use crate::task::{Action, Top};
use opgp_codec::Spool;
use opgp_keyring::{Keyring, Ready};
use opgp_octets::OutOfMemory;
use std::alloc::Global;

/// What an action makes of a keyring, of the parts that came so far.
#[derive(Drop)]
pub(crate) enum Making<'a, S> {
    /// What is written of each part.
    Text(KeyringText<'a, S>),
    /// The certificates with keys of some names, or the others.
    Named(NamedCertificates<'a, S>),
    /// The certificate of a number.
    Nth(NthCertificate),
    /// The certificate that has the row of a number.
    Row(RowFound),
    /// The report.
    Report(Checking),
    /// The report with fingerprints.
    Fingerprinted(CheckingFingerprints),
    /// The report with places.
    Placed(CheckingPlaces),
    /// The octets that all signatures hash.
    AllOctets(AllOctets<S>),
    /// The keyring.
    Ring(Keyring),
}

impl<'a, S: Spool + Drop> Making<'a, S> {
    /// Nothing yet, to be held in this spool, which is empty, or in memory. The condition is that
    /// the action makes something of a keyring. Fails only when out of memory.
    #[tactic(auto, unfolding(crate::specs::Making::HasMade))]
    pub(crate) fn new(
        alloc: Global,
        action: Action<'a>,
        spool: Option<S>,
    ) -> Result<Making<'a, S>, OutOfMemory>
        requires parts { is_of_parts action ≡ true }
        requires empty { IfSome spool (λ s. (S.serves ≡ true) × (S.tells ≡ true → S.holds s ≡ [])) }
        ensures { IfOk result (λ m.
            HasMade (DraftHas S.serves S.tells S.holds S.has_failed) action.entry m []) }
    {
        match action {
            Action::Show | Action::ShowValues => unreachable!(),
            Action::List => texts(alloc, spool, PartText::Lines),
            Action::ListValues => texts(alloc, spool, PartText::ValuedLines),
            Action::Write { .. } | Action::Join { merge: false, .. } => {
                texts(alloc, spool, PartText::AsTheyAre)
            }
            Action::WriteChosen { choice, .. } => texts(alloc, spool, PartText::Chosen(choice)),
            Action::Normalise { .. } => texts(alloc, spool, PartText::Normalised),
            Action::Split { out, nth: None } => texts(alloc, spool, PartText::Alone(out)),
            Action::Split { nth: Some(n), .. } => Ok(Making::Nth(NthCertificate::new(n as usize))),
            Action::SplitKeys { out, keys, except } => {
                let named = NamedCertificates::new(alloc, spool, out, keys, except)?;
                Ok(Making::Named(named))
            }
            Action::Check => Ok(Making::Report(Checking::new(alloc))),
            Action::CheckFingerprints => {
                Ok(Making::Fingerprinted(CheckingFingerprints::new(alloc)))
            }
            Action::CheckPlaces => Ok(Making::Placed(CheckingPlaces::new(alloc))),
            Action::Octets {
                top: Top::Literal,
                ..
            }
            | Action::Explain {
                top: Top::Literal,
                ..
            } => unreachable!(),
            Action::Octets { row, .. } => Ok(Making::Row(RowFound::new(alloc, row as usize))),
            Action::Explain { row, .. } => Ok(Making::Row(RowFound::new(alloc, row as usize))),
            Action::OctetsAll => {
                let octets = AllOctets::new(alloc, spool)?;
                Ok(Making::AllOctets(octets))
            }
            Action::Join { merge: true, .. } => Ok(Making::Ring(Keyring::empty(alloc))),
        }
    }

    /// Keeps the next part of a keyring, or what is made of it, and gives back a part whose memory
    /// the next one may use. Fails only when out of memory; nothing is known of what is made then.
    #[tactic(auto, unfolding(crate::specs::Making::HasMade))]
    pub(crate) fn keep(&mut self, part: Ready) -> Result<Option<Ready>, OutOfMemory>
        ensures { OnOk result ((action : Action) (parts : List PartValue)
            → HasMade (DraftHas S.serves S.tells S.holds S.has_failed) action self.old parts
            → AreParts (parts ++ part_of part ∷ [])
            → HasMade (DraftHas S.serves S.tells S.holds S.has_failed) action self.new
            (parts ++ part_of part ∷ [])) }
    {
        match self {
            Making::Text(text) => text.keep(part),
            Making::Named(named) => named.keep(part),
            Making::Nth(nth) => nth.keep(part),
            Making::Row(row) => row.keep(part),
            Making::Report(report) => report.keep(part),
            Making::Fingerprinted(report) => report.keep(part),
            Making::Placed(report) => report.keep(part),
            Making::AllOctets(octets) => octets.keep(part),
            Making::Ring(ring) => keep_whole(ring, part),
        }
    }
}

/// No text yet. Fails only when out of memory.
fn texts<'a, S: Spool + Drop>(
    alloc: Global,
    spool: Option<S>,
    text: PartText<'a>,
) -> Result<Making<'a, S>, OutOfMemory>
    requires { IfSome spool (λ s. (S.serves ≡ true) × (S.tells ≡ true → S.holds s ≡ [])) }
    ensures { IfOk result (λ m. (k : KeyringText S) × (m ≡ making.Text k)
        × HasTexts (DraftHas S.serves S.tells S.holds S.has_failed) text.entry k []) }
{
    let text = KeyringText::new(alloc, spool, text)?;
    Ok(Making::Text(text))
}

/// Keeps the next part of a keyring as it is. Fails only when out of memory.
fn keep_whole(ring: &mut Keyring, part: Ready) -> Result<Option<Ready>, OutOfMemory>
    ensures { OnOk result ((parts : List PartValue) → HasParts ring.old parts
        → AreParts (parts ++ part_of part ∷ []) → HasParts ring.new (parts ++ part_of part ∷ [])) }
{
    ring.keep(part)?;
    Ok(None)
}
