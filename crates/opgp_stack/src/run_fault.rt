//! The errors of a run.

ghost use Rattle.std.specs.Prelude.{◌≡◌, Some};
ghost use Rattle.opgp_stack.specs.Faults.{run_fault_of, run_number, run_text};

use opgp_codec::ReadError;
use opgp_octets::{Fault, OutOfMemory};
use std::error::Error;
use std::fmt;

/// Why a run ends without its output. With any but [`RunFault::Write`] and [`RunFault::Spool`]
/// nothing was written.
#[derive(Clone, Copy, Debug, PartialEq, Eq)]
pub enum RunFault {
    /// The input is refused: the fault of the lowest layer that does.
    Refused(Fault),
    /// A read failed.
    Read,
    /// A write failed. A prefix of the output may be written.
    Write,
    /// Out of memory.
    Memory,
    /// The spool failed. If that was while it was read again, a prefix of the output may be
    /// written.
    Spool,
    /// There is no row of that number, or it has no octets.
    NoSuchRow,
    /// There is no certificate of that number.
    NoSuchCertificate,
    /// No certificate has a key of the name of this number, from 0.
    NoSuchKey(usize),
    /// There are more than 64 signatures over one document.
    TooManySignatures,
    /// A file of verdicts isn't one on the signatures of the keyring.
    OtherVerdicts,
}

impl RunFault {
    /// The number, which never changes: that of a refusal is its reason's.
    pub fn number(&self) -> u8
        ensures { result ≡ run_number self.now }
    {
        match self {
            RunFault::Refused(fault) => fault.reason.number(),
            RunFault::Read => 60,
            RunFault::Write => 61,
            RunFault::Memory => 62,
            RunFault::Spool => 63,
            RunFault::NoSuchRow => 70,
            RunFault::NoSuchCertificate | RunFault::NoSuchKey(_) => 71,
            RunFault::TooManySignatures => 72,
            RunFault::OtherVerdicts => 73,
        }
    }
}

/// The line of the fault, or what went wrong in a few words.
impl fmt::Display for RunFault {
    ghost output = { λ fault. Some (run_text fault) };

    fn fmt<W: fmt::Write>(&self, f: &mut fmt::Formatter<W>) -> fmt::Result {
        match self {
            RunFault::Refused(fault) => write!(f, "{fault}"),
            RunFault::Read => f.write_str("read failed"),
            RunFault::Write => f.write_str("write failed"),
            RunFault::Memory => f.write_str("out of memory"),
            RunFault::Spool => f.write_str("spool failed"),
            RunFault::NoSuchRow => f.write_str("no such row"),
            RunFault::NoSuchCertificate => f.write_str("no such certificate"),
            RunFault::NoSuchKey(_) => f.write_str("no such certificate"),
            RunFault::TooManySignatures => f.write_str("too many signatures"),
            RunFault::OtherVerdicts => { f.write_str("the verdicts aren't those of this keyring") }
        }
    }
}

impl Error for RunFault {}

// Reading ends a run so.
impl From<ReadError> for RunFault {
    ghost from_gives = { λ error fault. fault ≡ run_fault_of error };

    fn from(error: ReadError) -> RunFault {
        match error {
            ReadError::Refused(fault) => RunFault::Refused(fault),
            ReadError::Read => RunFault::Read,
            ReadError::Memory => RunFault::Memory,
        }
    }
}

impl From<OutOfMemory> for RunFault {
    ghost use Rattle.opgp_stack.specs.declared.run_fault.RunFault.TheVariants.{Memory};

    ghost from_gives = { λ _ fault. fault ≡ Memory };

    fn from(_error: OutOfMemory) -> RunFault {
        RunFault::Memory
    }
}
