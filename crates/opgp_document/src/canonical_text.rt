//! The canonical text of a document that comes in pieces (RFC 9580, 5.2.1.2).

ghost use Rattle.std.specs.Prelude.{◌≡◌, ◌<◌, ◌+◌, ◌-◌, ◌++◌, ℕ, List, [], length, min, drop};
ghost use Rattle.std.specs.Prelude.{true, false, IfOk, IfErr, IfNone, IfSome, OnOk, OnErr};
ghost use Rattle.std.specs.Prelude.{vec_len, vec_capacity};
ghost use Rattle.opgp_document.specs.CanonicalText.{IsRead, TellsStray, last_place};
ghost use Rattle.opgp_document.specs.Text.{HasText, ends_cr, has_stray, to_text};

use crate::octets_as_text::{fill_text, is_behind_cr, octets_before_stray, put_text, text_len};
use crate::short_table::ShortTable;
use crate::stray_return::StrayReturn;
use opgp_octets::OutOfMemory;

/// Writes the canonical text of a document that comes in pieces of any size (RFC 9580, 5.2.1.2):
/// what a signature of type 01 is over.
///
/// A line ends in a line feed, or in a carriage return and a line feed; in the text each ends in
/// the two. What stands behind the last line end stays as it is. A document where a line feed
/// doesn't follow each carriage return has no canonical text: see [`StrayReturn`].
#[derive(Clone, Copy, Debug, PartialEq, Eq)]
pub struct CanonicalText {
    given: u64,
    last_return: Option<u64>,
}

impl CanonicalText {
    /// Begins a document. Allocates nothing.
    pub fn new() -> CanonicalText
        ensures { IsRead result [] }
    {
        CanonicalText {
            given: 0,
            last_return: None,
        }
    }

    /// Goes on where another one was, of which these are [`CanonicalText::given`] and
    /// [`CanonicalText::last_return`]: for callers that store the two numbers.
    pub fn resumed(given: u64, last_return: Option<u64>) -> CanonicalText
        ensures { (result.given ≡ given) × (result.last_return ≡ last_return) }
    {
        CanonicalText { given, last_return }
    }

    /// How many octets of the document were given; it saturates at 2^64 - 1.
    pub fn given(&self) -> u64
        ensures { result ≡ self.now.given }
    {
        self.given
    }

    /// The place of a carriage return that was the last octet given, if it was one. One behind
    /// 2^64 - 1 is told as that.
    pub fn last_return(&self) -> Option<u64>
        ensures { result ≡ self.now.last_return }
    {
        self.last_return
    }

    /// Takes the next piece of the document, and writes its text at the end of `text`. The texts of
    /// all pieces, one after the other, are the text of the document.
    ///
    /// The inner error is the first carriage return of the document that another octet than a line
    /// feed follows. One at the end of the piece is none until more comes, or the document ends.
    /// The outer error is out of memory: `text` gets all its room before anything is written.
    /// After either error both this and `text` are as they were.
    pub fn push(
        &mut self,
        piece: &[u8],
        text: &mut Vec<u8>,
    ) -> Result<Result<(), StrayReturn>, OutOfMemory>
        ensures read { IfOk result (λ told. OnOk told ((document : List ℕ)
            → IsRead self.old document → IsRead self.new (document ++ piece.now))) }
        ensures text { IfOk result (λ told. OnOk told ((document : List ℕ)
            → IsRead self.old document
            → text.new.items ≡ text.old.items ++ to_text (ends_cr false document) piece.now)) }
        // Whatever comes behind the piece.
        ensures stray { IfOk result (λ told. IfErr told (λ e. (document more : List ℕ)
            → IsRead self.old document → TellsStray (document ++ piece.now ++ more) e.pos)) }
        ensures kept { IfOk result (λ told. OnErr told
            ((self.new ≡ self.old) × (text.new.items ≡ text.old.items))) }
        ensures memory { OnErr result ((self.new ≡ self.old) × (text.new.items ≡ text.old.items)) }
        // It fails only if the vector lacked the room.
        ensures full { OnErr result ((document : List ℕ) → IsRead self.old document
            → vec_capacity text.old
            < vec_len text.old + length (to_text (ends_cr false document) piece.now)) }
    {
        let after_cr = self.last_return.is_some();
        if let Some(stray) = self.stray_in(piece) {
            return Ok(Err(stray));
        }
        text.reserve(text_len(after_cr, piece))?;
        put_text(after_cr, piece, text);
        self.pass(piece);
        Ok(Ok(()))
    }

    /// Takes the next piece of the document, and writes its text to the front of a table; returns
    /// how many octets that is. Allocates nothing.
    ///
    /// The inner error is that of [`CanonicalText::push`]. The outer error says that the table is
    /// shorter than the text. After either error both this and the table are as they were.
    pub fn fill(
        &mut self,
        piece: &[u8],
        table: &mut [u8],
    ) -> Result<Result<usize, StrayReturn>, ShortTable>
        ensures read { IfOk result (λ told. OnOk told ((document : List ℕ)
            → IsRead self.old document → IsRead self.new (document ++ piece.now))) }
        ensures size { IfOk result (λ told. IfOk told (λ size. (document : List ℕ)
            → IsRead self.old document
            → size ≡ length (to_text (ends_cr false document) piece.now))) }
        ensures filled { IfOk result (λ told. IfOk told (λ size. (document : List ℕ)
            → IsRead self.old document
            → table.new ≡ to_text (ends_cr false document) piece.now ++ drop size table.old)) }
        ensures stray { IfOk result (λ told. IfErr told (λ e. (document more : List ℕ)
            → IsRead self.old document → TellsStray (document ++ piece.now ++ more) e.pos)) }
        ensures kept { IfOk result (λ told. OnErr told
            ((self.new ≡ self.old) × (table.new ≡ table.old))) }
        ensures short { IfErr result (λ e. (document : List ℕ) → IsRead self.old document
            → (e.wanted ≡ length (to_text (ends_cr false document) piece.now))
            × (length table.old < e.wanted)) }
        ensures same { OnErr result ((self.new ≡ self.old) × (table.new ≡ table.old)) }
    {
        let after_cr = self.last_return.is_some();
        if let Some(stray) = self.stray_in(piece) {
            return Ok(Err(stray));
        }
        let size = text_len(after_cr, piece);
        if size > table.len() {
            return Err(ShortTable { wanted: size });
        }
        fill_text(after_cr, piece, table);
        self.pass(piece);
        Ok(Ok(size))
    }

    /// Ends the document. Allocates nothing.
    ///
    /// With Ok the text that was written is the canonical text of the whole document. The error is
    /// a carriage return at its end.
    pub fn finish(self) -> Result<(), StrayReturn>
        ensures ok { OnOk result ((document : List ℕ) → IsRead self document
            → HasText document (to_text false document)) }
        ensures stray { IfErr result (λ e. (document : List ℕ) → IsRead self document
            → TellsStray document e.pos) }
    {
        match self.last_return {
            Some(pos) => Err(StrayReturn { pos }),
            None => Ok(()),
        }
    }

    /// The first stray carriage return of the document, if the piece shows one.
    fn stray_in(&self, piece: &[u8]) -> Option<StrayReturn>
        ensures some { IfSome result (λ e. (document more : List ℕ) → IsRead self.now document
            → TellsStray (document ++ piece.now ++ more) e.pos) }
        ensures none { IfNone result ((document : List ℕ) → IsRead self.now document
            → has_stray (ends_cr false document) piece.now ≡ false) }
    {
        let count = octets_before_stray(self.last_return.is_some(), piece)?;
        Some(StrayReturn {
            pos: self.place_before(count),
        })
    }

    /// The place of the last of the next `count` octets; where they are none, of the carriage
    /// return that came last.
    fn place_before(&self, count: usize) -> u64
        ensures { (document : List ℕ) → IsRead self.now document
            → (count ≡ 0 → ends_cr false document ≡ true)
            → result ≡ min (length document + count - 1) last_place }
    {
        if count == 0 {
            self.last_return.unwrap_or(0)
        } else {
            self.given.saturating_add(count as u64 - 1)
        }
    }

    /// Takes a piece in which no carriage return is stray.
    fn pass(&mut self, piece: &[u8])
        ensures { (document : List ℕ) → IsRead self.old document
            → has_stray (ends_cr false document) piece.now ≡ false
            → IsRead self.new (document ++ piece.now) }
    {
        let after_cr = self.last_return.is_some();
        self.last_return = if is_behind_cr(after_cr, piece, piece.len()) {
            Some(self.place_before(piece.len()))
        } else {
            None
        };
        self.given = self.given.saturating_add(piece.len() as u64);
    }
}
