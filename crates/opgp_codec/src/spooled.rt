//! A spool as a sink, and all that it holds on its way to an output.

ghost use Rattle.std.specs.Prelude.{◌≡◌, [], false, Err};
ghost use Rattle.opgp_codec.specs.declared.draft_error.DraftError.TheVariants as error;
ghost use Rattle.opgp_codec.specs.Spool.{IsEmptied, SomeFailed, Unspools, UnspoolsVia};
ghost use Rattle.opgp_codec.specs.Spool.{spool_in, told};
ghost use Rattle.opgp_codec.specs.Writing.{octets_text};
ghost use Rattle.opgp_io.specs.Output.{sink_name, sink_of, state_of, waiting_in};

use crate::draft_error::DraftError;
use crate::out::Out;
use crate::spool::Spool;
use crate::via::add;
use opgp_armor::Label;
use opgp_io::{Armoring, Output, Sink};
use std::io;

/// How many octets are taken at a time.
const PIECE: usize = 16_384;

/// A spool that is filled as a sink is.
#[derive(Drop)]
pub(crate) struct Spooled<S> {
    spool: S,
}

impl<S: Spool> Spooled<S> {
    /// This spool.
    pub(crate) fn new(spool: S) -> Spooled<S>
        ensures { spool_in result ≡ spool }
    {
        Spooled { spool }
    }

    /// The spool, to be emptied.
    pub(crate) fn into_spool(self) -> S
        ensures { result ≡ spool_in self }
    {
        self.spool
    }
}

impl<S: Spool> Sink for Spooled<S> {
    ghost held = { λ s. told S.tells S.holds (spool_in s) };

    ghost has_failed = { λ s. S.has_failed (spool_in s) };

    fn put(&mut self, octets: &[u8]) -> io::Result<usize> {
        self.spool.put(octets)
    }

    fn failed(&self) -> bool {
        self.spool.failed()
    }
}

/// Adds all that a spool holds, as rows of armor if a block is open.
fn add_spooled<W: Sink, S: Spool + Drop>(
    output: &mut Output<'_, W>,
    armoring: &mut Option<Armoring>,
    mut spool: S,
) -> Result<(), DraftError>
    requires sound { W.has_failed (sink_of output.old) ≡ false }
    requires spool { S.has_failed spool ≡ false }
    ensures added { UnspoolsVia S.tells W.held W.has_failed output.old armoring.old output.new
        armoring.new result (S.holds spool) }
    ensures failed { result ≡ Err error.Spool → SomeFailed S.tells S.holds S.has_failed }
{
    let mut piece = [0u8; PIECE];
    'pieces: for _turn in 0..u64::MAX {
        let n = match spool.get(&mut piece) {
            Ok(n) => n,
            Err(_) => return Err(DraftError::Spool),
        };
        if n == 0 {
            return Ok(());
        }
        match add(output, armoring, &piece[..n]) {
            Ok(()) => {}
            Err(_) => return Err(DraftError::Write),
        }
    }
    Err(DraftError::Spool)
}

/// Adds all that a spool holds as one block of armor (RFC 9580, 6.2).
fn add_spooled_block<W: Sink, S: Spool + Drop>(
    output: &mut Output<'_, W>,
    spool: S,
) -> Result<(), DraftError>
    requires sound { W.has_failed (sink_of output.old) ≡ false }
    requires spool { S.has_failed spool ≡ false }
    ensures same { sink_name output.new ≡ sink_name output.old }
    ensures added { Unspools S.tells (state_of W.held W.has_failed output.old)
        (state_of W.held W.has_failed output.new) result (octets_text Out.Armor (S.holds spool)) }
    ensures failed { result ≡ Err error.Spool → SomeFailed S.tells S.holds S.has_failed }
{
    let mut armoring = match Armoring::begin(output, Label::PublicKeyBlock) {
        Ok(armoring) => Some(armoring),
        Err(_) => return Err(DraftError::Write),
    };
    match add_spooled(output, &mut armoring, spool) {
        Ok(()) => {}
        Err(error) => return Err(error),
    }
    match armoring {
        Some(armoring) => match armoring.end(output) {
            Ok(()) => Ok(()),
            Err(_) => Err(DraftError::Write),
        },
        None => unreachable!(),
    }
}

/// Adds all that a spool holds, in binary or as one block of armor.
fn add_all<W: Sink, S: Spool + Drop>(
    output: &mut Output<'_, W>,
    out: Out,
    spool: S,
) -> Result<(), DraftError>
    requires sound { W.has_failed (sink_of output.old) ≡ false }
    requires spool { S.has_failed spool ≡ false }
    ensures same { sink_name output.new ≡ sink_name output.old }
    ensures added { Unspools S.tells (state_of W.held W.has_failed output.old)
        (state_of W.held W.has_failed output.new) result (octets_text out (S.holds spool)) }
    ensures failed { result ≡ Err error.Spool → SomeFailed S.tells S.holds S.has_failed }
{
    match out {
        Out::Armor => add_spooled_block(output, spool),
        Out::Binary => {
            let mut none = None;
            add_spooled(output, &mut none, spool)
        }
    }
}

/// Writes all that a spool holds into an empty output, in binary or as one block of armor. The
/// conditions are that neither the sink nor the spool has failed.
pub(crate) fn put_all<W: Sink, S: Spool + Drop>(
    output: &mut Output<'_, W>,
    out: Out,
    spool: S,
) -> Result<(), DraftError>
    requires none { waiting_in output.old ≡ [] }
    requires sound { W.has_failed (sink_of output.old) ≡ false }
    requires spool { S.has_failed spool ≡ false }
    ensures same { sink_name output.new ≡ sink_name output.old }
    ensures put { IsEmptied S.tells W.held W.has_failed (sink_of output.old) (sink_of output.new)
        result (octets_text out (S.holds spool)) }
    ensures failed { result ≡ Err error.Spool → SomeFailed S.tells S.holds S.has_failed }
{
    match add_all(output, out, spool) {
        Ok(()) => {}
        Err(error) => return Err(error),
    }
    match output.finish() {
        Ok(()) => Ok(()),
        Err(_) => Err(DraftError::Write),
    }
}
