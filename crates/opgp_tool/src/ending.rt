//! How a run ends: its exit status and its line on standard error.

ghost use Rattle.std.specs.Prelude.{◌≡◌, IfOk, IsOk, Ok, string_bytes};
ghost use Rattle.opgp_tool.specs.Ending.{status_of, line_of};

use opgp_octets::{OutOfMemory, fault_line};
use opgp_stack::RunFault;
use std::alloc::Global;

/// The exit status of a run, and the line that it prints, with its line feed; the line may be
/// empty.
///
/// Fails only when out of memory; a run that succeeded needs none.
pub fn end_of(alloc: Global, outcome: &Result<(), RunFault>) -> Result<(u8, String), OutOfMemory>
    ensures status { IfOk result (λ end. end.0 ≡ status_of outcome.now) }
    ensures line { IfOk result (λ end. string_bytes end.1 ≡ line_of outcome.now) }
    ensures succeeds { outcome.now ≡ Ok tt → IsOk result }
{
    let (status, line) = match outcome {
        Ok(()) => (0, String::new(alloc)),
        Err(RunFault::Refused(fault)) => {
            let mut line = fault_line(alloc, fault)?;
            line.push('\n')?;
            (1, line)
        }
        Err(RunFault::NoSuchRow) => (1, String::from_str(alloc, "opgp: no such row\n")?),
        Err(RunFault::NoSuchCertificate | RunFault::NoSuchKey(_)) => {
            (1, String::from_str(alloc, "opgp: no such certificate\n")?)
        }
        Err(RunFault::TooManySignatures) => {
            (1, String::from_str(alloc, "opgp: too many signatures\n")?)
        }
        Err(RunFault::OtherVerdicts) => {
            let line = "opgp: the verdicts aren't those of this keyring\n";
            (1, String::from_str(alloc, line)?)
        }
        Err(RunFault::Read) => (3, String::from_str(alloc, "opgp: read failed\n")?),
        Err(RunFault::Write) => (3, String::from_str(alloc, "opgp: write failed\n")?),
        Err(RunFault::Memory) => (3, String::from_str(alloc, "opgp: out of memory\n")?),
        Err(RunFault::Spool) => (3, String::from_str(alloc, "opgp: spool failed\n")?),
    };
    Ok((status, line))
}
