//! One signature's place among those over a document: what becomes its answer.

ghost use Rattle.std.specs.Prelude.{◌≡◌, ◌++◌, [], ℕ, List, Option, Ok, IfOk, IfSome};
ghost use Rattle.opgp_hash.specs.SignedValue.{SignedValue};
ghost use Rattle.opgp_document.specs.Answer.{asked_of};
ghost use Rattle.opgp_document.specs.Place.{IsEnded, IsPlace, RunsFor};

use crate::document_why::DocumentWhy;
use crate::signature_hasher::{AlgorithmHasher, SignatureHasher};
use opgp_hash::Digest;
use opgp_octets::{BodyFault, OutOfMemory};
use opgp_packet::SigView;
use std::alloc::Global;

/// A signature's hasher, while there is one, and the answer that stands when there is none.
#[derive(Drop)]
pub(crate) struct Place {
    hasher: Option<SignatureHasher>,
    answer: Result<Digest, DocumentWhy>,
}

impl Place {
    /// The place of this signature, before the document. One that is malformed has no hasher.
    pub(crate) fn open(
        alloc: Global,
        signature: Result<SigView<'_>, BodyFault>,
    ) -> Result<Place, OutOfMemory>
        ensures { IfOk result (λ place. IsPlace place (asked_of signature.entry) []) }
    {
        match signature {
            Ok(view) => Place::of(alloc, view),
            Err(_) => Ok(Place {
                hasher: None,
                answer: Err(DocumentWhy::Opaque),
            }),
        }
    }

    fn of(alloc: Global, signature: SigView<'_>) -> Result<Place, OutOfMemory>
        ensures { IfOk result (λ place. IsPlace place (asked_of (Ok signature.entry)) []) }
    {
        match SignatureHasher::open(alloc, signature)? {
            Ok(hasher) => Ok(Place {
                hasher: Some(hasher),
                answer: Err(DocumentWhy::LineEnds),
            }),
            Err(why) => Ok(Place {
                hasher: None,
                answer: Err(why),
            }),
        }
    }

    /// Takes the next piece of the document.
    pub(crate) fn push(&mut self, piece: &[u8])
        ensures { (signature : Option SignedValue) (document : List ℕ)
            → IsPlace self.old signature document
            → IsPlace self.new signature (document ++ piece.now) }
    {
        if let Some(hasher) = &mut self.hasher {
            hasher.push(piece);
        }
    }

    /// What runs for this signature, copied for another one for which the same is hashed of a
    /// document; None if it isn't the same.
    pub(crate) fn running_for(&self, other: &Place) -> Option<AlgorithmHasher>
        ensures { IfSome result (λ running. (s t : Option SignedValue)
            (document begun : List ℕ) → IsPlace self.now s document → IsPlace other.now t begun
            → RunsFor running t document) }
    {
        match (&self.hasher, &other.hasher) {
            (Some(one), Some(two)) => one.running_for(two),
            _ => None,
        }
    }

    /// Takes over what ran for another signature.
    pub(crate) fn put(&mut self, running: AlgorithmHasher)
        ensures { (signature : Option SignedValue) (document begun : List ℕ)
            → IsPlace self.old signature begun → RunsFor running signature document
            → IsPlace self.new signature document }
    {
        if let Some(hasher) = &mut self.hasher {
            hasher.put(running);
        }
    }

    /// Ends the document.
    pub(crate) fn end(&mut self)
        ensures { (signature : Option SignedValue) (document : List ℕ)
            → IsPlace self.old signature document
            → IsEnded self.new signature document }
    {
        if let Some(hasher) = self.hasher.take() {
            if let Some(digest) = hasher.finish() {
                self.answer = Ok(digest);
            }
        }
    }

    /// The answer, once the document has ended.
    pub(crate) fn answer(&self) -> Result<Digest, DocumentWhy>
        ensures { result ≡ self.now.answer }
    {
        self.answer
    }
}
