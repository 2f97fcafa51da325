//! The octets that all signatures of a keyring hash, written as its certificates come.

ghost use Rattle.std.specs.Prelude.{◌≡◌, ◌++◌, ◌+◌, ◌∷◌, [], ℕ, List, true, false, IfOk, IfSome, OnOk};
ghost use Rattle.opgp_codec.specs.Draft.{DraftHas};
ghost use Rattle.opgp_hash.specs.CertificateHasher.{hasher_subject};
ghost use Rattle.opgp_hash.specs.Hashed.{hashed};
ghost use Rattle.opgp_hash.specs.Question.{question_value};
ghost use Rattle.opgp_report.specs.Asked.{Asked, asked_of};
ghost use Rattle.opgp_report.specs.Standing.{Standing, stands};
ghost use Rattle.opgp_report.specs.Visitor.{Shown};
ghost use Rattle.opgp_keyring.specs.Composed.{PartValue};
ghost use Rattle.opgp_keyring.specs.Parts.{AreParts};
ghost use Rattle.opgp_keyring.specs.State.{part_of};
ghost use Rattle.opgp_stack.specs.AllOctets.{AddsRows, HasRows, octets_line, octets_row};
ghost use Rattle.opgp_stack.specs.OnePart.{asked_among, certificates_in};
ghost use Rattle.opgp_io.specs.Output.{Extends, sink_of};

use opgp_codec::{Draft, Spool, Text};
use opgp_hash::{CertificateHasher, Question, write_octets};
use opgp_io::{Output, Sink, Word};
use opgp_keyring::{Keyring, Ready};
use opgp_octets::OutOfMemory;
use opgp_report::{Met, Posed, Visitor, visit};
use std::alloc::{AllocError, Global};
use std::io;

/// The hashed octets of a row, behind a line with the row's number and theirs.
#[derive(Clone, Copy)]
struct RowText<'a> {
    number: u64,
    octets: &'a [u8],
}

impl Text for RowText<'_> {
    ghost octets = { λ text. octets_row text.number text.octets.now };

    fn add<W: Sink>(self, output: &mut Output<'_, W>) -> io::Result<()> {
        add_row_line(output, self.number, self.octets.len() as u64)?;
        output.add(self.octets)
    }
}

/// Adds the line of a row.
fn add_row_line<W: Sink>(output: &mut Output<'_, W>, number: u64, size: u64) -> io::Result<()>
    requires { W.has_failed (sink_of output.old) ≡ false }
    ensures { Extends W.held W.has_failed output.old output.new result (octets_line number size) }
{
    output.add_words(&[
        Word::Text(b"row "),
        Word::Decimal(number),
        Word::Text(b" length "),
        Word::Decimal(size),
        Word::Text(b"\n"),
    ])
}

/// What is written of the signatures of the certificates that came so far, and how many rows of the
/// report they have. No certificate is kept.
#[derive(Drop)]
pub(crate) struct AllOctets<S> {
    alloc: Global,
    draft: Draft<S>,
    rows: u64,
}

impl<S: Spool + Drop> AllOctets<S> {
    /// Nothing yet, to be held in this spool, which is empty, or in memory. Fails only when out of
    /// memory.
    pub(crate) fn new(alloc: Global, spool: Option<S>) -> Result<AllOctets<S>, OutOfMemory>
        requires { IfSome spool (λ s. (S.serves ≡ true) × (S.tells ≡ true → S.holds s ≡ [])) }
        ensures { IfOk result (λ k.
            HasRows (DraftHas S.serves S.tells S.holds S.has_failed) k.rows k.draft []) }
    {
        let draft = Draft::new(alloc, spool)?;
        Ok(AllOctets {
            alloc,
            draft,
            rows: 0,
        })
    }

    /// Adds the rows of the next part, if it is a certificate. It gives back no part: the memory of
    /// a certificate goes into a keyring of it alone. Fails only when out of memory; nothing is
    /// known of what is written then.
    pub(crate) fn keep(&mut self, part: Ready) -> Result<Option<Ready>, OutOfMemory>
        ensures { OnOk result ((parts : List PartValue)
            → HasRows (DraftHas S.serves S.tells S.holds S.has_failed) self.old.rows self.old.draft
            (asked_among (certificates_in parts))
            → HasRows (DraftHas S.serves S.tells S.holds S.has_failed) self.new.rows self.new.draft
            (asked_among (certificates_in (parts ++ part_of part ∷ [])))) }
    {
        let Some(certificate) = part.certificate() else {
            return Ok(None);
        };
        let ring = Keyring::of(self.alloc, certificate)?;
        self.add_ring(&ring)?;
        Ok(None)
    }

    /// What is written.
    pub(crate) fn into_draft(self) -> Draft<S>
        ensures { result ≡ self.draft }
    {
        self.draft
    }

    /// Adds the hashed octets of the next row.
    fn add_octets(&mut self, question: &Question<'_>) -> Result<(), OutOfMemory>
        ensures rows { self.new.rows ≡ self.old.rows }
        ensures text { OnOk result ((given : List ℕ)
            → DraftHas S.serves S.tells S.holds S.has_failed self.old.draft given
            → DraftHas S.serves S.tells S.holds S.has_failed self.new.draft
            (given ++ octets_row self.old.rows (hashed (question_value question.now)))) }
    {
        let mut octets = Vec::new(self.alloc);
        write_octets(question, &mut octets)?;
        let number = self.rows;
        self.draft.add(RowText {
            number,
            octets: &octets,
        })
    }

    /// Counts a row. No input has so many that it fails: the limit of its octets is lower.
    fn count_row(&mut self) -> Result<(), OutOfMemory>
        ensures draft { self.new.draft ≡ self.old.draft }
        ensures rows { OnOk result (self.new.rows ≡ self.old.rows + 1) }
    {
        match self.rows.checked_add(1) {
            Some(rows) => {
                self.rows = rows;
                Ok(())
            }
            None => Err(AllocError),
        }
    }

    /// Adds the rows of a keyring. Fails only when out of memory.
    fn add_ring(&mut self, ring: &Keyring) -> Result<(), OutOfMemory>
        ensures { OnOk result ((asked : List Asked)
            → HasRows (DraftHas S.serves S.tells S.holds S.has_failed)
            self.old.rows self.old.draft asked
            → HasRows (DraftHas S.serves S.tells S.holds S.has_failed) self.new.rows self.new.draft
            (asked ++ asked_of ring.now)) }
    {
        visit(self, ring)?;
        Ok(())
    }
}

impl<'a, S: Spool + Drop> Visitor<'a> for AllOctets<S> {
    type Stop = OutOfMemory;

    ghost becomes = { AddsRows (λ k asked.
        HasRows (DraftHas S.serves S.tells S.holds S.has_failed) k.rows k.draft asked) };

    fn meet(
        &mut self,
        hasher: &mut CertificateHasher<'a>,
        met: &Met<'a>,
    ) -> Result<(), OutOfMemory> {
        match met.asked(hasher) {
            Posed::Question(_, question) => {
                self.add_octets(&question)?;
                self.count_row()?;
                Ok(())
            }
            Posed::Nothing(_) => {
                self.count_row()?;
                Ok(())
            }
        }
    }
}
