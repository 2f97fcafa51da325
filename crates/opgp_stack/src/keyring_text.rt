//! What is written of a keyring, made as its parts come.

ghost use Rattle.std.specs.Prelude.{◌≡◌, ◌++◌, ◌∷◌, [], List, true, IfOk, IfSome, OnOk};
ghost use Rattle.std.specs.List.{flat_map};
ghost use Rattle.opgp_codec.specs.Draft.{DraftHas};
ghost use Rattle.opgp_keyring.specs.Composed.{PartValue};
ghost use Rattle.opgp_keyring.specs.State.{part_of};
ghost use Rattle.opgp_stack.specs.PartText.{text_of_part};

use crate::part_text::PartText;
use opgp_codec::{Draft, Spool};
use opgp_keyring::Ready;
use opgp_octets::OutOfMemory;
use std::alloc::Global;

/// What is written of the parts of a keyring that came so far, each in the same way. None is kept.
#[derive(Drop)]
pub(crate) struct KeyringText<'a, S> {
    alloc: Global,
    text: PartText<'a>,
    draft: Draft<S>,
}

impl<'a, S: Spool + Drop> KeyringText<'a, S> {
    /// Nothing yet, to be held in this spool, which is empty, or in memory. Fails only when out of
    /// memory.
    pub(crate) fn new(
        alloc: Global,
        spool: Option<S>,
        text: PartText<'a>,
    ) -> Result<KeyringText<'a, S>, OutOfMemory>
        requires { IfSome spool (λ s. (S.serves ≡ true) × (S.tells ≡ true → S.holds s ≡ [])) }
        ensures text { IfOk result (λ k. k.text ≡ text.entry) }
        ensures empty { IfOk result (λ k.
            DraftHas S.serves S.tells S.holds S.has_failed k.draft []) }
    {
        let draft = Draft::new(alloc, spool)?;
        Ok(KeyringText { alloc, text, draft })
    }

    /// Adds what is written of the next part, and gives back a part whose memory the next one may
    /// use. Fails only when out of memory; nothing is known of the text then.
    pub(crate) fn keep(&mut self, part: Ready) -> Result<Option<Ready>, OutOfMemory>
        ensures text { self.new.text ≡ self.old.text }
        ensures draft { OnOk result ((parts : List PartValue)
            → DraftHas S.serves S.tells S.holds S.has_failed self.old.draft
            (flat_map (text_of_part self.old.text) parts)
            → DraftHas S.serves S.tells S.holds S.has_failed self.new.draft
            (flat_map (text_of_part self.old.text) (parts ++ part_of part ∷ []))) }
    {
        self.text.add(self.alloc, &mut self.draft, part)
    }

    /// What is written.
    pub(crate) fn into_draft(self) -> Draft<S>
        ensures { result ≡ self.entry.draft }
    {
        self.draft
    }
}
