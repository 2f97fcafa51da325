//! A handle of a reading.

ghost use Rattle.std.specs.Prelude.{◌≡◌, ◌↔◌, true, false, None, IfOk, IfSome, IsSome};

use crate::parts::Parts;
use crate::slot::{Reading, ReadingSlot};
use std::alloc::{AllocError, Global};
use std::mem;

/// A handle of a reading: for C a flag and a pointer, all zeros at first.
#[repr(C)]
pub struct Reader {
    is_open: bool,
    slot: ReadingSlot,
    ghost same: { slot.full ≡ is_open },
}

impl Reader {
    /// A handle of a reading. Fails only when out of memory.
    pub(crate) fn of(alloc: Global, reading: Reading) -> Result<Reader, AllocError>
        ensures { IfOk result (λ r. (r.is_open ≡ true) × (r.slot.held ≡ reading)) }
    {
        Ok(Reader::of_box(Box::new(alloc, reading)?))
    }

    /// A handle of a box.
    fn of_box(boxed: Box<Reading>) -> Reader
        ensures { (result.is_open ≡ true) × (result.slot.held ≡ boxed.value) }
    {
        Reader {
            is_open: true,
            slot: ReadingSlot::of_parts(Parts::of(boxed)),
        }
    }

    /// What it holds, if it holds something.
    pub(crate) fn into_box(self) -> Option<Box<Reading>>
        ensures open { self.is_open ≡ true → IfSome result (λ b. b.value ≡ self.slot.held) }
        ensures some { IsSome result ↔ self.is_open ≡ true }
    {
        let Reader { is_open, slot } = self;
        if is_open {
            Some(slot.into_parts().into_box())
        } else {
            None
        }
    }

    /// Takes out what it holds, and is closed meanwhile, so that another call that uses it finds
    /// nothing; None if it holds nothing.
    pub(crate) fn take(&mut self, alloc: Global) -> Option<Box<Reading>>
        ensures taken { IfSome result
            (λ b. (self.old.is_open ≡ true) × (b.value ≡ self.old.slot.held)) }
        ensures none { result ≡ None → (self.old.is_open ≡ false) × (self.new ≡ self.old) }
        ensures closed { self.new.is_open ≡ false }
    {
        if !self.is_open {
            return None;
        }
        let closed = Reader {
            is_open: false,
            slot: ReadingSlot::none(alloc),
        };
        mem::replace(self, closed).into_box()
    }

    /// Holds this; what it held before is let go.
    pub(crate) fn give(&mut self, held: Box<Reading>)
        ensures { (self.new.is_open ≡ true) × (self.new.slot.held ≡ held.value) }
    {
        drop(mem::replace(self, Reader::of_box(held)).into_box());
    }
}
