//! A table of what signatures hash, in the making.

ghost use Rattle.std.specs.Prelude.{◌≡◌, ◌≤◌, ◌<◌, ◌-◌, ◌++◌, ◌∷◌, [], IfOk, length, true, false};
ghost use Rattle.opgp_hash.specs.Hashed.{hashed};
ghost use Rattle.opgp_hash.specs.Question.{question_value};
ghost use Rattle.opgp_tables.specs.HashedRows.{hashed_row};
ghost use Rattle.opgp_tables.specs.declared.hashed_table.Halt.TheVariants.{Full};

use crate::hashed_row::HashedRow;
use opgp_hash::{Question, write_octets};
use opgp_octets::OutOfMemory;
use std::alloc::Global;
use std::mem;

/// A table that grows by what the signatures hash that are asked for.
#[derive(Drop)]
pub(crate) struct HashedTable {
    /// How many signatures come before those.
    pub(crate) skip: u64,
    /// How many of those are still to come.
    pub(crate) left: u64,
    /// How many those are.
    pub(crate) count: u64,
    /// How many octets there is room for.
    pub(crate) room: u64,
    pub(crate) rows: Vec<HashedRow>,
    pub(crate) bytes: Vec<u8>,
    pub(crate) alloc: Global,
    ghost few: { left ≤ count },
}

/// Why no more signatures are visited.
#[derive(Drop)]
pub(crate) enum Halt {
    /// There is no room for the next one, or none is asked for any more: these are the rows, and
    /// the octets.
    Full(Vec<HashedRow>, Vec<u8>),
    /// Out of memory.
    Memory,
}

impl HashedTable {
    /// Adds the row of this number and its octets, if there is room for these; whether there is.
    /// Fails only when out of memory.
    pub(crate) fn add(&mut self, number: u64, question: &Question<'_>) -> Result<bool, OutOfMemory>
        ensures done { IfOk result (λ fits. fits ≡ true
            → (length (hashed (question_value question.now)) ≤ self.old.room)
            × (self.new.room ≡ self.old.room - length (hashed (question_value question.now)))
            × (self.new.rows.items ≡ self.old.rows.items
            ++ hashed_row number (length self.old.bytes.items) (question_value question.now) ∷ [])
            × (self.new.bytes.items ≡ self.old.bytes.items
            ++ hashed (question_value question.now))) }
        ensures full { IfOk result (λ fits. fits ≡ false
            → (self.old.room < length (hashed (question_value question.now)))
            × (self.new.rows.items ≡ self.old.rows.items)
            × (self.new.bytes.items ≡ self.old.bytes.items)) }
        ensures kept { (self.new.skip ≡ self.old.skip) × (self.new.left ≡ self.old.left)
            × (self.new.count ≡ self.old.count) }
    {
        let at = self.bytes.len();
        write_octets(question, &mut self.bytes)?;
        let size = (self.bytes.len() - at) as u64;
        if size > self.room {
            self.bytes.truncate(at);
            return Ok(false);
        }
        self.room -= size;
        self.rows.push(HashedRow {
            row: number,
            at: at as u64,
            size,
        })?;
        Ok(true)
    }

    /// Takes out what was added.
    pub(crate) fn halt(&mut self) -> Halt
        ensures { result ≡ Full self.old.rows self.old.bytes }
    {
        let rows = mem::replace(&mut self.rows, Vec::new(self.alloc));
        let bytes = mem::replace(&mut self.bytes, Vec::new(self.alloc));
        Halt::Full(rows, bytes)
    }
}
