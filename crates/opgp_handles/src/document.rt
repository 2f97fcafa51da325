//! A handle of signatures over a document.

ghost use Rattle.std.specs.Prelude.{◌≡◌, ◌↔◌, true, false, None, IfOk, IfSome, IsSome};

use crate::parts::Parts;
use crate::slot::{Signed, SignedSlot};
use std::alloc::{AllocError, Global};
use std::mem;

/// A handle of signatures over a document: for C a flag and a pointer, all zeros at first.
#[repr(C)]
pub struct Document {
    is_open: bool,
    slot: SignedSlot,
    ghost same: { slot.full ≡ is_open },
}

impl Document {
    /// A handle of these. Fails only when out of memory.
    pub(crate) fn of(alloc: Global, signed: Signed) -> Result<Document, AllocError>
        ensures { IfOk result (λ r. (r.is_open ≡ true) × (r.slot.held ≡ signed)) }
    {
        Ok(Document::of_box(Box::new(alloc, signed)?))
    }

    /// A handle of a box.
    fn of_box(boxed: Box<Signed>) -> Document
        ensures { (result.is_open ≡ true) × (result.slot.held ≡ boxed.value) }
    {
        Document {
            is_open: true,
            slot: SignedSlot::of_parts(Parts::of(boxed)),
        }
    }

    /// What it holds, if it holds something.
    pub(crate) fn into_box(self) -> Option<Box<Signed>>
        ensures open { self.is_open ≡ true → IfSome result (λ b. b.value ≡ self.slot.held) }
        ensures some { IsSome result ↔ self.is_open ≡ true }
    {
        let Document { is_open, slot } = self;
        if is_open {
            Some(slot.into_parts().into_box())
        } else {
            None
        }
    }

    /// Takes out what it holds, and is closed meanwhile, so that another call that uses it finds
    /// nothing; None if it holds nothing.
    pub(crate) fn take(&mut self, alloc: Global) -> Option<Box<Signed>>
        ensures taken { IfSome result
            (λ b. (self.old.is_open ≡ true) × (b.value ≡ self.old.slot.held)) }
        ensures none { result ≡ None → (self.old.is_open ≡ false) × (self.new ≡ self.old) }
        ensures closed { self.new.is_open ≡ false }
    {
        if !self.is_open {
            return None;
        }
        let closed = Document {
            is_open: false,
            slot: SignedSlot::none(alloc),
        };
        mem::replace(self, closed).into_box()
    }

    /// Holds this; what it held before is let go.
    pub(crate) fn give(&mut self, held: Box<Signed>)
        ensures { (self.new.is_open ≡ true) × (self.new.slot.held ≡ held.value) }
    {
        drop(mem::replace(self, Document::of_box(held)).into_box());
    }
}
