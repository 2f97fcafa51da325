//! The pointers that C keeps, and what they point to.

ghost use Rattle.std.specs.Prelude.{◌≡◌, Bool, true, false};
ghost use Rattle.opgp_handles.specs.declared.slot.Held.{Held};
ghost use Rattle.opgp_handles.specs.declared.slot.Reading.{Reading};
ghost use Rattle.opgp_handles.specs.declared.slot.Signed.{Signed};
ghost use Rattle.opgp_handles.specs.Slot.{held_coded, held_row, reading_coded, reading_row};
ghost use Rattle.opgp_handles.specs.Slot.{signed_coded, signed_row, slot_owns};

use crate::parts::Parts;
use opgp_codec::{PartReader, Waiting};
use opgp_document::{DocumentAnswers, SignedDocument};
use opgp_keyring::{DetachedSignatures, Keyring};
use opgp_octets::Fault;
use std::alloc::Global;
use std::marker::Model;
use std::ptr;

/// What is held.
#[derive(Drop)]
pub struct Held {
    /// The keyring.
    pub keyring: Keyring,
    /// Of a keyring that was read: how many octets outside of armored blocks were passed over though
    /// they are no text.
    pub skipped: u64,
}

/// A keyring that is read in pieces.
#[derive(Drop)]
pub enum Reading {
    /// More octets may come.
    Going(PartReader),
    /// The input has ended, and is a keyring; these parts of it wait.
    Ended(Waiting),
    /// The input has ended, and is refused.
    Refused(Fault),
    /// Memory ran out.
    Lost,
}

/// Signatures, and the document that they are over, which comes in pieces.
#[derive(Drop)]
pub enum Signed {
    /// More octets may come.
    Going(DetachedSignatures, SignedDocument),
    /// The document has ended.
    Ended(DetachedSignatures, DocumentAnswers),
    /// The document is that of a cleartext message (RFC 9580, 7), and has ended.
    Message(DetachedSignatures, DocumentAnswers),
    /// What stands in the place of these while the document ends.
    Lost,
}

/// A pointer to what is held, or to nothing. It stands beside [`ReadingSlot`], since a type with a
/// parameter can't be one of C, and neither can one that names what it points to.
#[repr(C)]
#[derive(Drop)]
pub struct Slot {
    ptr: *mut u8,
    alloc: Global,
    pub ghost held: { Held } by { held_coded },
    pub ghost full: { Bool },
}

impl Model for Slot {
    ghost also_owns = { λ s. slot_owns held_row s.full s.alloc s.ptr s.held };
}

impl Slot {
    pub(crate) fn of_parts(parts: Parts<Held, Global>) -> Slot
        ensures { (result.held ≡ parts.value) × (result.full ≡ true) }
    {
        let Parts { ptr, alloc } = parts;
        Slot {
            ptr: ptr as *mut u8,
            alloc,
        }
    }

    /// A pointer to nothing.
    pub(crate) fn none(alloc: Global) -> Slot
        ensures { result.full ≡ false }
    {
        Slot {
            ptr: ptr::null_mut(),
            alloc,
        }
    }

    pub(crate) fn into_parts(self) -> Parts<Held, Global>
        requires { self.full ≡ true }
        ensures { result.value ≡ self.held }
    {
        let Slot { ptr, alloc } = self;
        Parts {
            ptr: ptr as *mut Held,
            alloc,
        }
    }
}

/// A pointer to a reading, or to nothing.
#[repr(C)]
#[derive(Drop)]
pub struct ReadingSlot {
    ptr: *mut u8,
    alloc: Global,
    pub ghost held: { Reading } by { reading_coded },
    pub ghost full: { Bool },
}

impl Model for ReadingSlot {
    ghost also_owns = { λ s. slot_owns reading_row s.full s.alloc s.ptr s.held };
}

impl ReadingSlot {
    pub(crate) fn of_parts(parts: Parts<Reading, Global>) -> ReadingSlot
        ensures { (result.held ≡ parts.value) × (result.full ≡ true) }
    {
        let Parts { ptr, alloc } = parts;
        ReadingSlot {
            ptr: ptr as *mut u8,
            alloc,
        }
    }

    /// A pointer to nothing.
    pub(crate) fn none(alloc: Global) -> ReadingSlot
        ensures { result.full ≡ false }
    {
        ReadingSlot {
            ptr: ptr::null_mut(),
            alloc,
        }
    }

    pub(crate) fn into_parts(self) -> Parts<Reading, Global>
        requires { self.full ≡ true }
        ensures { result.value ≡ self.held }
    {
        let ReadingSlot { ptr, alloc } = self;
        Parts {
            ptr: ptr as *mut Reading,
            alloc,
        }
    }
}

/// A pointer to signatures over a document, or to nothing.
#[repr(C)]
#[derive(Drop)]
pub struct SignedSlot {
    ptr: *mut u8,
    alloc: Global,
    pub ghost held: { Signed } by { signed_coded },
    pub ghost full: { Bool },
}

impl Model for SignedSlot {
    ghost also_owns = { λ s. slot_owns signed_row s.full s.alloc s.ptr s.held };
}

impl SignedSlot {
    pub(crate) fn of_parts(parts: Parts<Signed, Global>) -> SignedSlot
        ensures { (result.held ≡ parts.value) × (result.full ≡ true) }
    {
        let Parts { ptr, alloc } = parts;
        SignedSlot {
            ptr: ptr as *mut u8,
            alloc,
        }
    }

    /// A pointer to nothing.
    pub(crate) fn none(alloc: Global) -> SignedSlot
        ensures { result.full ≡ false }
    {
        SignedSlot {
            ptr: ptr::null_mut(),
            alloc,
        }
    }

    pub(crate) fn into_parts(self) -> Parts<Signed, Global>
        requires { self.full ≡ true }
        ensures { result.value ≡ self.held }
    {
        let SignedSlot { ptr, alloc } = self;
        Parts {
            ptr: ptr as *mut Signed,
            alloc,
        }
    }
}
