//! A message in the cleartext signature framework.

ghost use Rattle.std.specs.Prelude.{◌≡◌, ◌≤◌, ◌<◌, ◌+◌, ◌++◌, length, drop, IfOk, IfErr, OnOk};
ghost use Rattle.std.specs.Prelude.{OnErr, vec_len, vec_capacity};
ghost use Rattle.opgp_cleartext.specs.Cleartext.{HasCleartext, joined, joined_canonically};
ghost use Rattle.opgp_cleartext.specs.Faults.{IsCleartextFault};
ghost use Rattle.opgp_cleartext.specs.View.{document_of, place_of, rest_of};

use crate::reading::{headers_at, signatures_at, text_at};
use crate::writing::{fill_joined, joined_len, put_joined};
use opgp_document::ShortTable;
use opgp_octets::{Fault, OutOfMemory};

/// A message in the cleartext signature framework (RFC 9580, 7): a view of its text.
///
/// In front of a message only blank lines may be. Its headers name hash algorithms, and say nothing
/// else (6.2.2.3, 7.1). Each line of its text says a line of the document: escaping is undone
/// (7.2), and then spaces and tabs at the line's end are dropped (7.1). A line that begins with a
/// hyphen and no space behind it, or has a carriage return in front of anything but its line feed,
/// is refused.
#[derive(Clone, Copy, Debug)]
pub struct Cleartext<'a> {
    said: &'a [u8],
    rest: &'a [u8],
    place: usize,
}

impl<'a> Cleartext<'a> {
    /// Reads a message. `line` is the most octets that a line may have, without its line feed, up
    /// to the line that begins the signatures. Allocates nothing.
    ///
    /// The error is the fault of the first line that may not come where it is, with its place in
    /// the text; or the text ends before its signatures, and the place is its end.
    pub fn read(text: &'a [u8], line: u64) -> Result<Cleartext<'a>, Fault>
        ensures ok { IfOk result (λ c.
            HasCleartext line text.now (document_of c) (rest_of c)) }
        ensures place { IfOk result (λ c. (place_of c ≤ length text.now)
            × (rest_of c ≡ drop (place_of c) text.now)) }
        ensures err { IfErr result (λ f. IsCleartextFault line text.now f) }
    {
        let headers = headers_at(text, line)?;
        let start = text_at(text, headers, line)?;
        let place = signatures_at(text, start, line)?;
        let rest = &text[place..];
        let said = &text[start..place];
        Ok(Cleartext { said, rest, place })
    }

    /// How many octets [`Cleartext::write_document`] writes.
    pub fn document_len(&self) -> usize
        ensures { result ≡ length (joined (document_of self.now)) }
    {
        joined_len(self.said, b"\n".as_slice())
    }

    /// Writes the document at the end of `document`: its lines with a line feed between them, and
    /// none at the end.
    ///
    /// The error is out of memory: `document` gets all its room before anything is written, and is
    /// as it was then.
    pub fn write_document(&self, document: &mut Vec<u8>) -> Result<(), OutOfMemory>
        ensures ok { OnOk result (document.new.items
            ≡ document.old.items ++ joined (document_of self.now)) }
        ensures err { OnErr result (document.new.items ≡ document.old.items) }
        // It fails only if the vector lacked the room.
        ensures full { OnErr result (vec_capacity document.old
            < vec_len document.old + length (joined (document_of self.now))) }
    {
        document.reserve(self.document_len())?;
        put_joined(self.said, b"\n".as_slice(), document);
        Ok(())
    }

    /// Writes what signatures of type 01 over the document hash at the end of `text`: the
    /// document's lines with a carriage return and a line feed between them.
    ///
    /// The error is out of memory: `text` gets all its room before anything is written, and is as
    /// it was then.
    pub fn write_hashed(&self, text: &mut Vec<u8>) -> Result<(), OutOfMemory>
        ensures ok { OnOk result (text.new.items
            ≡ text.old.items ++ joined_canonically (document_of self.now)) }
        ensures err { OnErr result (text.new.items ≡ text.old.items) }
        // It fails only if the vector lacked the room.
        ensures full { OnErr result (vec_capacity text.old
            < vec_len text.old + length (joined_canonically (document_of self.now))) }
    {
        text.reserve(joined_len(self.said, b"\r\n".as_slice()))?;
        put_joined(self.said, b"\r\n".as_slice(), text);
        Ok(())
    }

    /// Writes the document to the front of a table; returns how many octets that is. Allocates
    /// nothing.
    ///
    /// The error says that the table is shorter than the document, and how long that is. The table
    /// is as it was then.
    pub fn fill_document(&self, table: &mut [u8]) -> Result<usize, ShortTable>
        ensures size { IfOk result (λ size. size ≡ length (joined (document_of self.now))) }
        ensures filled { IfOk result (λ size. table.new
            ≡ joined (document_of self.now) ++ drop size table.old) }
        ensures short { IfErr result (λ e. (e.wanted ≡ length (joined (document_of self.now)))
            × (length table.old < e.wanted)) }
        ensures same { OnErr result (table.new ≡ table.old) }
    {
        let wanted = self.document_len();
        if wanted > table.len() {
            return Err(ShortTable { wanted });
        }
        fill_joined(self.said, b"\n".as_slice(), table);
        Ok(wanted)
    }

    /// The octets behind the document: the armored signatures, and whatever follows them. Their
    /// first line begins a block of signatures; nothing else of them was read.
    pub fn signatures(&self) -> &'a [u8]
        ensures { result.now ≡ rest_of self.now }
    {
        self.rest
    }

    /// Where the octets of [`Cleartext::signatures`] begin in the text.
    pub fn signatures_place(&self) -> usize
        ensures { result ≡ place_of self.now }
    {
        self.place
    }
}
