//! One document, hashed for several signatures.

ghost use Rattle.std.specs.Prelude.{◌≡◌, ◌≤◌, ◌<◌, ◌↔◌, ◌++◌, [], ℕ, List, length, map};
ghost use Rattle.std.specs.Prelude.{Option, IfOk, IfErr, IfSome, MatchOption};
ghost use Rattle.std.specs.List.{AllZip};
ghost use Rattle.opgp_hash.specs.SignedValue.{SignedValue};
ghost use Rattle.opgp_document.specs.Answer.{IsAnswer, IsAnswerAt, asked_of};
ghost use Rattle.opgp_document.specs.Place.{IsLent, IsPlace, IsEnded};
ghost use Rattle.opgp_document.specs.SignedDocument.{AreAnswers, IsSignedBy};
ghost use Rattle.opgp_document.specs.declared.open_fault.OpenFault.TheVariants.{TooManySignatures};

use crate::document_why::DocumentWhy;
use crate::open_fault::OpenFault;
use crate::place::Place;
use crate::signature_hasher::AlgorithmHasher;
use opgp_hash::Digest;
use opgp_octets::{BodyFault, OutOfMemory};
use opgp_packet::SigView;
use std::alloc::Global;

/// The most signatures that one document is hashed for: it is hashed once for each salt, in version
/// 6, so their number multiplies the work.
pub const MOST_SIGNATURES: usize = 64;

/// A document that comes in pieces of any size, hashed for several signatures in one pass: as it
/// is for those of type 00, as canonical text for those of type 01 (RFC 9580, 5.2.1, 5.2.4). It is
/// hashed once for all of version 4 that have the same type and hash algorithm.
///
/// It owns all that it needs. Only [`SignedDocument::open`] allocates: one list, and for each
/// signature that has a digest a copy of what it hashes behind the document.
#[derive(Drop)]
pub struct SignedDocument {
    places: Vec<Place>,
}

impl SignedDocument {
    /// Begins a document under these signatures, of which some may be malformed.
    ///
    /// A signature that has no digest of a document is no error: its answer says why, which for
    /// one that is malformed is [`DocumentWhy::Opaque`]. The errors
    /// are [`OpenFault::TooManySignatures`] if and only if there are more than
    /// [`MOST_SIGNATURES`], and [`OpenFault::Memory`].
    pub fn open(
        alloc: Global,
        signatures: &[Result<SigView<'_>, BodyFault>],
    ) -> Result<SignedDocument, OpenFault>
        ensures ok { IfOk result (λ d. IsSignedBy d (map asked_of signatures.now) []) }
        ensures few { IfOk result (λ _. length signatures.now ≤ 64) }
        ensures many { IfErr result (λ e.
            (e ≡ TooManySignatures) ↔ (64 < length signatures.now)) }
    {
        if signatures.len() > MOST_SIGNATURES {
            return Err(OpenFault::TooManySignatures);
        }
        match places_of(alloc, signatures) {
            Ok(places) => Ok(SignedDocument { places }),
            Err(_) => Err(OpenFault::Memory),
        }
    }

    /// Takes the next piece of the document. Allocates nothing.
    pub fn push(&mut self, piece: &[u8])
        ensures { (signatures : List (Option SignedValue)) (document : List ℕ)
            → IsSignedBy self.old signatures document
            → IsSignedBy self.new signatures (document ++ piece.now) }
    {
        push_all(&mut self.places, piece);
    }

    /// Ends the document: what is answered for each signature. Allocates nothing.
    ///
    /// The answers depend on the signatures and the whole document alone, and not on the pieces in
    /// which it came.
    pub fn finish(self) -> DocumentAnswers
        ensures { (signatures : List (Option SignedValue)) (document : List ℕ)
            → IsSignedBy self signatures document
            → AreAnswers result signatures document }
    {
        let SignedDocument { mut places } = self;
        end_all(&mut places);
        DocumentAnswers { places }
    }
}

/// What is answered for each signature over a document that has ended, in their order.
#[derive(Drop)]
pub struct DocumentAnswers {
    places: Vec<Place>,
}

impl DocumentAnswers {
    /// How many signatures there are.
    pub fn len(&self) -> usize
        ensures { (signatures : List (Option SignedValue)) (document : List ℕ)
            → AreAnswers self.now signatures document → result ≡ length signatures }
    {
        self.places.len()
    }

    /// The digest of what the signature of this index hashes, or the first reason why it has none;
    /// None if and only if there is no such signature.
    pub fn get(&self, index: usize) -> Option<Result<Digest, DocumentWhy>>
        ensures { (signatures : List (Option SignedValue)) (document : List ℕ)
            → AreAnswers self.now signatures document
            → MatchOption result (length signatures ≤ index)
            (λ answer. IsAnswerAt signatures index document answer) }
    {
        if index < self.places.len() {
            Some(self.places[index].answer())
        } else {
            None
        }
    }

    /// All of them, in order. Fails only when out of memory.
    pub fn list(&self, alloc: Global) -> Result<Vec<Result<Digest, DocumentWhy>>, OutOfMemory>
        ensures { IfOk result (λ found. (signatures : List (Option SignedValue))
            (document : List ℕ) → AreAnswers self.now signatures document
            → AllZip (λ answer s. IsAnswer s document answer) found.items signatures) }
    {
        let mut found = Vec::new(alloc);
        for place in &self.places {
            found.push(place.answer())?;
        }
        Ok(found)
    }
}

/// The places of these signatures, before the document.
fn places_of(
    alloc: Global,
    signatures: &[Result<SigView<'_>, BodyFault>],
) -> Result<Vec<Place>, OutOfMemory>
    ensures { IfOk result (λ places.
        AllZip (λ p s. IsPlace p s []) places.items (map asked_of signatures.now)) }
{
    let mut places = Vec::with_capacity(alloc, signatures.len())?;
    for signature in signatures {
        let place = Place::open(alloc, *signature)?;
        places.push(place)?;
    }
    Ok(places)
}

/// What runs at an earlier place, copied for the place of this index, for which the same is hashed
/// of the document; None if there is none.
fn running_of(places: &[Place], next: usize) -> Option<AlgorithmHasher>
    requires { next < length places.now }
    ensures { IfSome result (IsLent places.now next) }
{
    for i in 0..next {
        if let Some(running) = places[i].running_for(&places[next]) {
            return Some(running);
        }
    }
    None
}

/// Gives each place the next piece of the document. Where the same is hashed for several of them,
/// it is hashed once.
fn push_all(places: &mut [Place], piece: &[u8])
    ensures { (signatures : List (Option SignedValue)) (document : List ℕ)
        → AllZip (λ p s. IsPlace p s document) places.old signatures
        → AllZip (λ p s. IsPlace p s (document ++ piece.now)) places.new signatures }
{
    let mut next = 0;
    'places: while next < places.len() {
        match running_of(places, next) {
            Some(running) => places[next].put(running),
            None => places[next].push(piece),
        }
        next += 1;
    }
}

/// Ends the document at each place.
fn end_all(places: &mut [Place])
    ensures { (signatures : List (Option SignedValue)) (document : List ℕ)
        → AllZip (λ p s. IsPlace p s document) places.old signatures
        → AllZip (λ p s. IsEnded p s document) places.new signatures }
{
    for place in places.iter_mut() {
        place.end();
    }
}
