//! The table of what some of a keyring's signatures hash.

ghost use Rattle.std.specs.Prelude.{◌≡◌, IfOk};
ghost use Rattle.opgp_tables.specs.HashedRows.{hashed_bytes, hashed_rows};
ghost use Rattle.opgp_tables.specs.HashedTable.{AddsHashed};

use crate::hashed_row::HashedRow;
use crate::hashed_table::{Halt, HashedTable};
use opgp_hash::CertificateHasher;
use opgp_keyring::Keyring;
use opgp_octets::OutOfMemory;
use opgp_report::{Met, Posed, Visitor, visit};
use std::alloc::{AllocError, Global};

impl<'a> Visitor<'a> for HashedTable {
    type Stop = Halt;

    ghost becomes = { AddsHashed };

    fn meet(&mut self, hasher: &mut CertificateHasher<'a>, met: &Met<'a>) -> Result<(), Halt> {
        if self.skip > 0 {
            self.skip -= 1;
            return Ok(());
        }
        if self.left == 0 {
            return Err(self.halt());
        }
        let number = self.count - self.left;
        self.left -= 1;
        let Posed::Question(_, question) = met.asked(hasher) else {
            return Ok(());
        };
        match self.add(number, &question) {
            Ok(true) => Ok(()),
            Ok(false) => Err(self.halt()),
            Err(_) => Err(Halt::Memory),
        }
    }
}

/// What signatures of the table of jobs hash, from one row on: of at most so many rows, as many as
/// hash no more than `most` octets together. There is a row for each that is hashed, in order, and
/// the octets that they point into. Fails only when out of memory.
pub fn hashed_rows(
    alloc: Global,
    keyring: &Keyring,
    first: u64,
    count: u64,
    most: u64,
) -> Result<(Vec<HashedRow>, Vec<u8>), OutOfMemory>
    ensures { IfOk result (λ x. (x.0.items ≡ hashed_rows first count most keyring.now)
        × (x.1.items ≡ hashed_bytes first count most keyring.now)) }
{
    let mut table = HashedTable {
        skip: first,
        left: count,
        count,
        room: most,
        rows: Vec::new(alloc),
        bytes: Vec::new(alloc),
        alloc,
    };
    match visit(&mut table, keyring) {
        Ok(()) => {
            let HashedTable { rows, bytes, .. } = table;
            Ok((rows, bytes))
        }
        Err(Halt::Full(rows, bytes)) => Ok((rows, bytes)),
        Err(Halt::Memory) => Err(AllocError),
    }
}
