//! The surface of `opgp_stack`.

ghost use Rattle.std.specs.Prelude.{◌≡◌, false};

use opgp_octets::{Fault, Limits};
use opgp_ring::{BlockOf, Keyring, SignedLiteral};
use opgp_stack::{
    Action, Answer, EngineError, Mode, Out, PacketsAnswer, RunFault, SignedAnswer, Sink, Source,
    Task, Top, Watched, read_keyring, read_packets, read_signed, run, write_keyring,
};
use std::alloc::Global;
use std::io;

fn pull<R: Source>(reader: &mut R, buf: &mut [u8]) -> io::Result<usize>
    requires { R.has_failed reader.old ≡ false }
{
    reader.pull(buf)
}

fn put<W: Sink>(writer: &mut W, o: &[u8]) -> io::Result<usize>
    requires { W.has_failed writer.old ≡ false }
{
    writer.put(o)
}

fn have_failed<R: Source, W: Sink>(reader: &R, writer: &W) -> bool {
    reader.failed() || writer.failed()
}

fn watched<T>(inner: T) -> Watched<T> {
    Watched::new(inner)
}

fn given_back<T>(watched: Watched<T>) -> T {
    watched.into_inner()
}

fn mode_number(mode: Mode) -> u8 {
    match mode {
        Mode::Auto => 0,
        Mode::Armor => 1,
        Mode::Binary => 2,
    }
}

fn is_armored(out: Out) -> bool {
    match out {
        Out::Armor => true,
        Out::Binary => false,
    }
}

fn keyring<R: Source>(
    alloc: Global,
    reader: &mut R,
    mode: Mode,
    limits: &Limits,
) -> Result<Answer, EngineError>
    requires { R.has_failed reader.old ≡ false }
{
    read_keyring(alloc, reader, mode, limits)
}

fn of_answer(answer: Answer) -> Result<Keyring, Fault> {
    match answer {
        Answer::Ring(ring) => Ok(ring),
        Answer::Refused(fault) => Err(fault),
    }
}

fn signed<R: Source>(
    alloc: Global,
    reader: &mut R,
    mode: Mode,
    limits: &Limits,
) -> Result<SignedAnswer, EngineError>
    requires { R.has_failed reader.old ≡ false }
{
    read_signed(alloc, reader, mode, limits)
}

fn of_signed(answer: SignedAnswer) -> Result<SignedLiteral, Fault> {
    match answer {
        SignedAnswer::Literal(literal) => Ok(literal),
        SignedAnswer::Refused(fault) => Err(fault),
    }
}

fn packets<R: Source>(
    alloc: Global,
    reader: &mut R,
    mode: Mode,
    limits: &Limits,
) -> Result<PacketsAnswer, EngineError>
    requires { R.has_failed reader.old ≡ false }
{
    read_packets(alloc, reader, mode, limits)
}

fn of_packets(answer: PacketsAnswer) -> Result<Vec<BlockOf>, Fault> {
    match answer {
        PacketsAnswer::Packets(blocks) => Ok(blocks),
        PacketsAnswer::Refused(fault) => Err(fault),
    }
}

fn written<W: Sink>(
    alloc: Global,
    keyring: &Keyring,
    out: Out,
    writer: &mut W,
) -> Result<(), EngineError>
    requires { W.has_failed writer.old ≡ false }
{
    write_keyring(alloc, keyring, out, writer)
}

fn is_read(error: &EngineError) -> bool {
    match error {
        EngineError::Read => true,
        EngineError::Write | EngineError::Memory => false,
    }
}

fn task<'a>(mode: Mode, limits: Limits, action: Action<'a>) -> Task<'a> {
    Task {
        mode,
        limits,
        action,
    }
}

fn actions<'a>(out: Out, row: u64) -> [Action<'a>; 10] {
    [
        Action::List,
        Action::Show,
        Action::Check,
        Action::Write { out },
        Action::Normalise { out },
        Action::Split {
            out,
            nth: Some(row),
        },
        Action::Split { out, nth: None },
        Action::Join { out, merge: true },
        Action::Octets {
            row,
            top: Top::Ring,
        },
        Action::Octets {
            row,
            top: Top::Literal,
        },
    ]
}

fn ran<R: Source, W: Sink>(
    alloc: Global,
    task: &Task,
    reader: &mut R,
    writer: &mut W,
) -> Result<(), RunFault>
    requires reader { R.has_failed reader.old ≡ false }
    requires writer { W.has_failed writer.old ≡ false }
{
    run(alloc, task, reader, writer)
}

fn fault_of(why: RunFault) -> Option<Fault> {
    match why {
        RunFault::Refused(fault) => Some(fault),
        RunFault::Read | RunFault::Write | RunFault::Memory => None,
        RunFault::NoSuchRow | RunFault::NoSuchCertificate => None,
        _ => None,
    }
}
