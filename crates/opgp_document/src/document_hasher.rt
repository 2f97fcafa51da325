//! A hasher of a document, by any hash algorithm (RFC 9580, 5.2.4).

ghost use Rattle.std.specs.Prelude.{◌≡◌, ◌++◌, ℕ, List, [], Bool, true, IfSome, IfNone};
ghost use Rattle.opgp_document.specs.Text.{HasText};
ghost use Rattle.opgp_document.specs.DocumentHasher.{IsGiven};
ghost use Rattle.opgp_document.specs.HashedDocument.{IsHashedAs};

use crate::octets_as_text::{feed_text, has_stray};
use sha2::Digest;

/// Hashes a document that comes in pieces of any size, behind some octets of a signature and
/// before others (RFC 9580, 5.2.4): its octets as they are, or its canonical text (5.2.1.2).
///
/// In a text a line ends in a line feed, or in a carriage return and a line feed. A document where
/// a carriage return isn't followed by a line feed has no canonical text: programs disagree about
/// it. No method allocates.
#[derive(Drop)]
pub struct DocumentHasher<D> {
    hasher: D,
    is_text: bool,
    after_cr: bool,
    has_stray: bool,
}

impl<D: Digest> DocumentHasher<D> {
    /// Begins a document, behind this front: the salt of a version 6 signature, or nothing. Its
    /// canonical text is hashed if `is_text`, else its octets as they are.
    pub fn new(is_text: bool, front: &[u8]) -> DocumentHasher<D>
        ensures { IsGiven D.holds result is_text front.now [] }
    {
        let mut hasher = D::new();
        hasher.update(front);
        DocumentHasher {
            hasher,
            is_text,
            after_cr: false,
            has_stray: false,
        }
    }

    /// Takes the next piece of the document.
    pub fn push(&mut self, piece: &[u8])
        ensures { (is_text : Bool) (front document : List ℕ)
            → IsGiven D.holds self.old is_text front document
            → IsGiven D.holds self.new is_text front (document ++ piece.now) }
    {
        if self.is_text {
            self.has_stray = self.has_stray || has_stray(self.after_cr, piece);
            self.after_cr = feed_text(&mut self.hasher, self.after_cr, piece);
        } else {
            self.hasher.update(piece);
        }
    }

    /// The hasher of the front and the whole document, or its canonical text; None if and only if
    /// its text was wanted and it has none.
    pub fn end(self) -> Option<D>
        ensures some { IfSome result (λ hasher. (is_text : Bool) (front document : List ℕ)
            → IsGiven D.holds self is_text front document
            → (shown : List ℕ) × IsHashedAs is_text document shown
            × D.holds hasher (front ++ shown)) }
        ensures none { IfNone result ((is_text : Bool) (front document : List ℕ)
            → IsGiven D.holds self is_text front document
            → (is_text ≡ true) × ((text : List ℕ) → HasText document text → ⊥)) }
    {
        let DocumentHasher {
            hasher,
            is_text: _,
            after_cr,
            has_stray,
        } = self;
        if has_stray || after_cr {
            return None;
        }
        Some(hasher)
    }

    /// The digest of the front, the whole document or its canonical text, and these octets, which
    /// the signature hashes behind it; None as for [`DocumentHasher::end`].
    pub fn finish(self, octets: &[u8]) -> Option<D::Output>
        ensures some { IfSome result (λ digest. (is_text : Bool) (front document : List ℕ)
            → IsGiven D.holds self is_text front document
            → (shown : List ℕ) × IsHashedAs is_text document shown
            × D.digest_of (front ++ shown ++ octets.now) digest) }
        ensures none { IfNone result ((is_text : Bool) (front document : List ℕ)
            → IsGiven D.holds self is_text front document
            → (is_text ≡ true) × ((text : List ℕ) → HasText document text → ⊥)) }
    {
        match self.end() {
            Some(mut hasher) => {
                hasher.update(octets);
                Some(hasher.finalize())
            }
            None => None,
        }
    }
}

impl<D: Digest + Clone> DocumentHasher<D> {
    /// A copy; None if none can be made.
    pub(crate) fn copy(&self) -> Option<DocumentHasher<D>>
        requires copies { (h c : D) → D.is_clone h c → c ≡ h }
        ensures { IfSome result (λ copy. copy ≡ self.now) }
    {
        match self.hasher.clone() {
            Ok(hasher) => Some(DocumentHasher {
                hasher,
                is_text: self.is_text,
                after_cr: self.after_cr,
                has_stray: self.has_stray,
            }),
            Err(_) => None,
        }
    }
}
