//! What the definitions of canonical text and of hashed documents imply.

ghost use Rattle.std.specs.Prelude.{◌≡◌, ◌==◌, ◌↔◌, ◌||◌, ◌++◌, ℕ, List, false, map};
ghost use Rattle.std.specs.Prelude.{◌≤◌, ◌⊎◌, ◌^◌, length, Option, Result};
ghost use Rattle.opgp_document.specs.Answer.{IsAnswer};
ghost use Rattle.opgp_document.specs.CanonicalText.{TellsStray};
ghost use Rattle.opgp_document.specs.declared.document_why.DocumentWhy.{DocumentWhy};
ghost use Rattle.opgp_hash.specs.declared.digests.Digest.{Digest};
ghost use Rattle.opgp_hash.specs.Hashed.{hashed};
ghost use Rattle.opgp_hash.specs.SignedValue.{SignedValue};
ghost use Rattle.opgp_document.specs.HashedDocument.{HashesDocument, IsHashedAs, IsWithin};
ghost use Rattle.opgp_document.specs.HashedDocument.{question_of};
ghost use Rattle.opgp_document.specs.Text.{HasLines, HasText, IsStrayAt, Line, canonical_lines};
ghost use Rattle.opgp_document.specs.Text.{ends_cr, has_stray, to_text};

/// A document has one canonical text at most.
pub fn one_text()
    ensures { (document a b : List ℕ) → HasText document a → HasText document b → a ≡ b }
{}

/// It has one if and only if each carriage return is followed by a line feed, and then it is that
/// which is made from the first octet to the last.
pub fn made_text()
    ensures { (document text : List ℕ) → HasText document text
        ↔ (((has_stray false document || ends_cr false document) ≡ false)
        × (text ≡ to_text false document)) }
{}

/// A document has a canonical text, or a first stray carriage return, which is at one place.
pub fn stray_place()
    ensures either { (document : List ℕ) → ((text : List ℕ) × HasText document text)
        ⊎ ((place : ℕ) × IsStrayAt document place) }
    ensures no_text { (document text : List ℕ) (place : ℕ) → IsStrayAt document place
        → HasText document text → ⊥ }
    ensures one { (document : List ℕ) (a b : ℕ) → IsStrayAt document a → IsStrayAt document b
        → a ≡ b }
    // A place is told exactly in each document that a machine can hold.
    ensures exact { (document : List ℕ) (pos : ℕ) → length document ≤ 2 ^ 64
        → TellsStray document pos → IsStrayAt document pos }
{}

/// A canonical text is its own.
pub fn text_of_text()
    ensures { (document text : List ℕ) → HasText document text → HasText text text }
{}

/// The text says the lines: documents of one text have the same ones, and differ only in how these
/// end.
pub fn same_lines()
    ensures { (a b : List ℕ) (ls ms : List Line) (x y : List ℕ)
        → HasLines a ls x → HasLines b ms y
        → canonical_lines ls ++ x ≡ canonical_lines ms ++ y
        → (map (λ l. l.octets) ls ≡ map (λ l. l.octets) ms) × (x ≡ y) }
{}

/// Hashed octets say which signature over a document they are of, and what of it is hashed: no two
/// signatures that differ in anything hashed, or over documents of different octets or texts, have
/// the same ones.
pub fn one_document()
    ensures { (s r : SignedValue) (a b octets : List ℕ) → IsWithin s → IsWithin r
        → HashesDocument s a octets → HashesDocument r b octets
        → (s ≡ r) × ((shown : List ℕ) × IsHashedAs (s.kind == 1) a shown
        × IsHashedAs (s.kind == 1) b shown) }
{}

/// For type 00 they are those of the question that is asked of a document in memory.
pub fn document_as_asked()
    ensures asked { (s : SignedValue) (document octets : List ℕ) → s.kind ≡ 0
        → HashesDocument s document octets → octets ≡ hashed (question_of s document) }
    ensures hashes { (s : SignedValue) (document : List ℕ) → s.kind ≡ 0
        → HashesDocument s document (hashed (question_of s document)) }
{}

/// There is one answer at most for a signature and a document. So equal documents have equal
/// digests, however each was cut into pieces.
pub fn one_answer()
    ensures { (signature : Option SignedValue) (document : List ℕ)
        (a b : Result Digest DocumentWhy) → IsAnswer signature document a
        → IsAnswer signature document b → a ≡ b }
{}
