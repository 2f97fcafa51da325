//! Errors of calls that return a value.

ghost use Rattle.std.specs.Prelude.{◌≡◌, Some};
ghost use Rattle.opgp_octets.specs.Refusal.{mpi_fault_text, parse_fault_text, push_fault_text};

use crate::fault::{BodyFault, Reason};
use std::error::Error;
use std::fmt;

/// An allocation failed.
pub type OutOfMemory = std::alloc::AllocError;

/// Why no multiprecision integer was read.
#[derive(Clone, Copy, Debug, PartialEq, Eq)]
pub enum MpiFault {
    /// Octets of it are missing.
    Short,
    /// Its count of bits isn't that of its most significant bit, though strictness was required.
    MpiBits,
    /// An allocation failed.
    Memory,
}

/// Why a packet's body was not parsed.
#[derive(Clone, Copy, Debug, PartialEq, Eq)]
pub enum ParseFault {
    /// The body has a fault.
    Body(BodyFault),
    /// An allocation failed.
    Memory,
}

/// Why a pushed reader took nothing.
#[derive(Clone, Copy, Debug, PartialEq, Eq)]
pub enum PushFault {
    /// An allocation failed; the reader is spent from now on.
    Memory,
    /// An earlier call returned [`PushFault::Memory`].
    Spent,
}

impl From<OutOfMemory> for MpiFault {
    ghost use Rattle.opgp_octets.specs.declared.refusal.MpiFault.TheVariants.{Memory};

    ghost from_gives = { λ _ e. e ≡ Memory };

    fn from(_refused: OutOfMemory) -> MpiFault {
        MpiFault::Memory
    }
}

impl From<BodyFault> for ParseFault {
    ghost use Rattle.opgp_octets.specs.declared.refusal.ParseFault.TheVariants.{Body};

    ghost from_gives = { λ f e. e ≡ Body f };

    fn from(fault: BodyFault) -> ParseFault {
        ParseFault::Body(fault)
    }
}

impl From<OutOfMemory> for ParseFault {
    ghost use Rattle.opgp_octets.specs.declared.refusal.ParseFault.TheVariants.{Memory};

    ghost from_gives = { λ _ e. e ≡ Memory };

    fn from(_refused: OutOfMemory) -> ParseFault {
        ParseFault::Memory
    }
}

/// The name of the reason, or `out of memory`.
impl fmt::Display for MpiFault {
    ghost output = { λ fault. Some (mpi_fault_text fault) };

    fn fmt<W: fmt::Write>(&self, f: &mut fmt::Formatter<W>) -> fmt::Result {
        match self {
            MpiFault::Short => f.write_str(Reason::Short.name()),
            MpiFault::MpiBits => f.write_str(Reason::MpiBits.name()),
            MpiFault::Memory => f.write_str("out of memory"),
        }
    }
}

impl Error for MpiFault {}

/// The text of the body's fault, or `out of memory`.
impl fmt::Display for ParseFault {
    ghost output = { λ fault. Some (parse_fault_text fault) };

    fn fmt<W: fmt::Write>(&self, f: &mut fmt::Formatter<W>) -> fmt::Result {
        match self {
            ParseFault::Body(fault) => write!(f, "{fault}"),
            ParseFault::Memory => f.write_str("out of memory"),
        }
    }
}

impl Error for ParseFault {}

/// `out of memory`, or the name of [`Reason::Spent`].
impl fmt::Display for PushFault {
    ghost output = { λ fault. Some (push_fault_text fault) };

    fn fmt<W: fmt::Write>(&self, f: &mut fmt::Formatter<W>) -> fmt::Result {
        match self {
            PushFault::Memory => f.write_str("out of memory"),
            PushFault::Spent => f.write_str(Reason::Spent.name()),
        }
    }
}

impl Error for PushFault {}
