//! The canonical text of a document.

ghost use Rattle.std.specs.Prelude.{◌≡◌, ◌⊎◌, ◌++◌, [], ℕ, List, true, false, IfOk, IfSome, OnOk};
ghost use Rattle.opgp_codec.specs.Draft.{DraftHas};
ghost use Rattle.opgp_codec.specs.Pulled.{OfAll};
ghost use Rattle.opgp_stack.specs.Canonical.{HasTextOf, IsEndOf, IsHeldOf, IsTextOf, OfText};
ghost use Rattle.opgp_stack.specs.Running.{IsMade, IsSpooled, ReadsFor, RunsOf};

use crate::hashing::OctetsText;
use crate::made::write_draft;
use crate::run_fault::RunFault;
use opgp_codec::{Draft, IncomingOctets, Out, Spool};
use opgp_document::{CanonicalText, StrayReturn};
use opgp_io::{Sink, Source};
use opgp_octets::{Limits, OutOfMemory};
use std::alloc::Global;

/// Reads a document, and writes its canonical text (RFC 9580, 5.2.1.2): what signatures of type 01
/// are over. Each line ends in a carriage return and a line feed; what is behind the last line end
/// stays as it is. The text is held in memory, or in this spool, which is to be empty, until the
/// document has ended. The conditions are that neither the source nor the sink has failed.
///
/// The errors are `Refused`, `Read`, `Memory`; `Write` and `Spool`, after which the sink holds a
/// prefix of the text. With any other nothing was written. A document is refused if it is longer
/// than the limit `input`, or has a carriage return that no line feed follows: the fault of the
/// layer `text` says where the first one is.
pub fn run_canonical<R: Source, W: Sink, S: Spool + Drop>(
    alloc: Global,
    limits: &Limits,
    spool: Option<S>,
    reader: &mut R,
    writer: &mut W,
) -> Result<(), RunFault>
    requires reader { R.has_failed reader.old ≡ false }
    requires writer { W.has_failed writer.old ≡ false }
    requires empty { IfSome spool (λ s. (S.serves ≡ true) × (S.tells ≡ true → S.holds s ≡ [])) }
    ensures { RunsOf R.left R.has_failed (λ old new result made.
        IsMade W.held W.has_failed old new result made
        ⊎ IsSpooled S.serves S.tells W.held W.has_failed old new result made)
        limits.now (OfText limits.now) reader.old reader.new writer.old writer.new result }
{
    let text = text_of(alloc, limits, spool, reader)?;
    write_draft(text, Out::Binary, writer)
}

/// The text of a document that comes from a source. The conditions are that the source hasn't
/// failed, and that a spool is empty.
///
/// The errors are `Refused`, `Read` and `Memory`.
fn text_of<R: Source, S: Spool + Drop>(
    alloc: Global,
    limits: &Limits,
    spool: Option<S>,
    source: &mut R,
) -> Result<Draft<S>, RunFault>
    requires sound { R.has_failed source.old ≡ false }
    requires empty { IfSome spool (λ s. (S.serves ≡ true) × (S.tells ≡ true → S.holds s ≡ [])) }
    ensures { ReadsFor (λ answer. OfAll R.left R.has_failed source.old source.new limits.now
        (λ octets. IsTextOf (DraftHas S.serves S.tells S.holds S.has_failed) limits.now octets
        answer))
        (R.has_failed source.new ≡ true) (R.has_failed source.new ≡ false) result }
{
    let mut text = TextDraft::new(alloc, spool)?;
    match add_all(alloc, limits, &mut text, source) {
        Ok(()) => text.finish(),
        Err(fault) => {
            drop(text);
            Err(fault)
        }
    }
}

/// Adds the text of a document that comes from a source to a text, which is that of no piece. It is
/// lent: an end with an error has nothing of it to free.
fn add_all<R: Source, S: Spool + Drop>(
    alloc: Global,
    limits: &Limits,
    text: &mut TextDraft<S>,
    source: &mut R,
) -> Result<(), RunFault>
    requires sound { R.has_failed source.old ≡ false }
    requires empty { HasTextOf (DraftHas S.serves S.tells S.holds S.has_failed) text.old [] }
    ensures { ReadsFor (λ answer. OfAll R.left R.has_failed source.old source.new limits.now
        (λ octets. IsHeldOf (DraftHas S.serves S.tells S.holds S.has_failed) limits.now text.new
        octets answer))
        (R.has_failed source.new ≡ true) (R.has_failed source.new ≡ false) result }
{
    let mut incoming = IncomingOctets::new(alloc, limits)?;
    'pieces: while incoming.next(source)? {
        text.add(incoming.piece())?;
    }
    match incoming.finish() {
        Ok(()) => Ok(()),
        Err(fault) => Err(RunFault::Refused(fault)),
    }
}

/// The canonical text of the pieces of a document so far.
#[derive(Drop)]
struct TextDraft<S> {
    canonical: CanonicalText,
    piece: Vec<u8>,
    draft: Draft<S>,
    stray: Option<u64>,
}

impl<S: Spool + Drop> TextDraft<S> {
    /// That of no piece. Fails only when out of memory.
    fn new(alloc: Global, spool: Option<S>) -> Result<TextDraft<S>, OutOfMemory>
        requires { IfSome spool (λ s. (S.serves ≡ true) × (S.tells ≡ true → S.holds s ≡ [])) }
        ensures { IfOk result (λ t.
            HasTextOf (DraftHas S.serves S.tells S.holds S.has_failed) t []) }
    {
        let draft = Draft::new(alloc, spool)?;
        Ok(TextDraft {
            canonical: CanonicalText::new(),
            piece: Vec::new(alloc),
            draft,
            stray: None,
        })
    }

    /// Adds that of the next piece, unless a carriage return was stray. Fails only when out of
    /// memory; nothing is known of the text then.
    fn add(&mut self, piece: &[u8]) -> Result<(), OutOfMemory>
        ensures { OnOk result ((document : List ℕ)
            → HasTextOf (DraftHas S.serves S.tells S.holds S.has_failed) self.old document
            → HasTextOf (DraftHas S.serves S.tells S.holds S.has_failed) self.new
            (document ++ piece.now)) }
    {
        if self.stray.is_some() {
            return Ok(());
        }
        self.piece.clear();
        match self.canonical.push(piece, &mut self.piece)? {
            Ok(()) => self.draft.add(OctetsText {
                octets: &self.piece,
            }),
            Err(stray) => {
                self.stray = Some(stray.pos);
                Ok(())
            }
        }
    }

    /// The text of the whole document, or the fault of one that has none.
    fn finish(self) -> Result<Draft<S>, RunFault>
        ensures { (document : List ℕ)
            → HasTextOf (DraftHas S.serves S.tells S.holds S.has_failed) self document
            → IsEndOf (DraftHas S.serves S.tells S.holds S.has_failed) document result }
    {
        let TextDraft {
            canonical,
            piece: _,
            draft,
            stray,
        } = self;
        if let Some(pos) = stray {
            return Err(RunFault::Refused(StrayReturn { pos }.fault()));
        }
        match canonical.finish() {
            Ok(()) => Ok(draft),
            Err(stray) => Err(RunFault::Refused(stray.fault())),
        }
    }
}
