//! What is written of a part of a keyring.

ghost use Rattle.std.specs.Prelude.{◌≡◌, ◌++◌, ℕ, List, Ok, Err, Some, IfOk, MatchResult, OnOk};
ghost use Rattle.opgp_codec.specs.Draft.{DraftHas};
ghost use Rattle.opgp_codec.specs.Writing.{packets_text};
ghost use Rattle.opgp_merge.specs.Chosen.{chosen_part};
ghost use Rattle.opgp_keyring.specs.Keyring.{certificate_packets};
ghost use Rattle.opgp_keyring.specs.State.{part_of};
ghost use Rattle.opgp_stack.specs.PartText.{text_of_part};
ghost use Rattle.opgp_stack.specs.Parts.{certificate_text, part_octets};

use crate::valued_listing::ValuedListingText;
use crate::writing_listing::ListingText;
use opgp_codec::{Draft, Out, PacketsText, Spool};
use opgp_keyring::{Certificate, Packets, Ready};
use opgp_merge::{Choice, choose_certificate};
use opgp_octets::OutOfMemory;
use std::alloc::Global;

/// What is written of each part of a keyring: its lead, and each certificate.
#[derive(Clone, Copy)]
pub(crate) enum PartText<'a> {
    /// A line for each packet.
    Lines,
    /// The same, with values.
    ValuedLines,
    /// The packets as they are.
    AsTheyAre,
    /// The packets in the current format.
    Normalised,
    /// A certificate on its own, written so; nothing of the lead.
    Alone(Out),
    /// What is chosen of a certificate, and all of the lead, as they are.
    Chosen(Choice<'a>),
}

impl<'a> PartText<'a> {
    /// Adds it to a draft, and gives back a part whose memory the next one may use. Fails only when
    /// out of memory; nothing is known of the draft then.
    pub(crate) fn add<S: Spool + Drop>(
        self,
        alloc: Global,
        draft: &mut Draft<S>,
        part: Ready,
    ) -> Result<Option<Ready>, OutOfMemory>
        ensures { OnOk result ((given : List ℕ)
            → DraftHas S.serves S.tells S.holds S.has_failed draft.old given
            → DraftHas S.serves S.tells S.holds S.has_failed draft.new
            (given ++ text_of_part self.entry (part_of part))) }
    {
        match self {
            PartText::Lines => {
                let packets = part.packets();
                let added = draft.add(ListingText { packets });
                given_back(added, part)
            }
            PartText::ValuedLines => {
                let packets = part.packets();
                let added = draft.add(ValuedListingText { packets });
                given_back(added, part)
            }
            PartText::AsTheyAre => {
                let added = add_packets(draft, &part);
                given_back(added, part)
            }
            PartText::Normalised => {
                let normal = part.normalise();
                let added = add_packets(draft, &normal);
                given_back(added, normal)
            }
            PartText::Alone(out) => add_certificate(draft, out, part),
            PartText::Chosen(choice) => {
                let chosen = chosen_of(alloc, part, choice)?;
                let added = add_packets(draft, &chosen);
                given_back(added, chosen)
            }
        }
    }
}

/// Gives back a part, unless adding it failed: then it is freed.
pub(crate) fn given_back(
    added: Result<(), OutOfMemory>,
    part: Ready,
) -> Result<Option<Ready>, OutOfMemory>
    ensures added { OnOk result (added ≡ Ok tt) }
    ensures part { MatchResult added (λ _. result ≡ Ok (Some part)) (λ e. result ≡ Err e) }
{
    match added {
        Ok(()) => Ok(Some(part)),
        Err(error) => {
            drop(part);
            Err(error)
        }
    }
}

/// Adds the packets of a part. Fails only when out of memory.
pub(crate) fn add_packets<S: Spool + Drop>(
    draft: &mut Draft<S>,
    part: &Ready,
) -> Result<(), OutOfMemory>
    ensures { OnOk result ((given : List ℕ)
        → DraftHas S.serves S.tells S.holds S.has_failed draft.old given
        → DraftHas S.serves S.tells S.holds S.has_failed draft.new
        (given ++ part_octets (part_of part.now))) }
{
    let out = Out::Binary;
    let packets = part.packets();
    draft.add(PacketsText { out, packets })
}

/// Adds a certificate on its own, and nothing of the lead. Fails only when out of memory.
pub(crate) fn add_certificate<S: Spool + Drop>(
    draft: &mut Draft<S>,
    out: Out,
    part: Ready,
) -> Result<Option<Ready>, OutOfMemory>
    ensures { OnOk result ((given : List ℕ)
        → DraftHas S.serves S.tells S.holds S.has_failed draft.old given
        → DraftHas S.serves S.tells S.holds S.has_failed draft.new
        (given ++ certificate_text out (part_of part))) }
{
    let Some(certificate) = part.certificate() else {
        return Ok(None);
    };
    let added = add_alone(draft, out, &certificate);
    given_back(added, Ready::Certificate(certificate))
}

/// Adds a certificate on its own. Fails only when out of memory.
pub(crate) fn add_alone<S: Spool + Drop>(
    draft: &mut Draft<S>,
    out: Out,
    certificate: &Certificate,
) -> Result<(), OutOfMemory>
    ensures { OnOk result ((given : List ℕ)
        → DraftHas S.serves S.tells S.holds S.has_failed draft.old given
        → DraftHas S.serves S.tells S.holds S.has_failed draft.new
        (given ++ packets_text out (certificate_packets certificate.now))) }
{
    let packets = Packets::of_certificate(certificate);
    draft.add(PacketsText { out, packets })
}

/// What is chosen of a part. Fails only when out of memory.
pub(crate) fn chosen_of(
    alloc: Global,
    part: Ready,
    choice: Choice<'_>,
) -> Result<Ready, OutOfMemory>
    ensures { IfOk result (λ p. part_of p ≡ chosen_part choice.entry (part_of part)) }
{
    match part {
        Ready::Lead(lead) => Ok(Ready::Lead(lead)),
        Ready::Certificate(certificate) => {
            let chosen = choose_certificate(alloc, certificate, choice)?;
            Ok(Ready::Certificate(chosen))
        }
    }
}
