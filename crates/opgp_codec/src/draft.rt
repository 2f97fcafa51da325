//! Text that is held back until it is known to be right.

ghost use Rattle.std.specs.Prelude.{◌≡◌, ◌++◌, [], ℕ, List, None, true, false};
ghost use Rattle.std.specs.Prelude.{Err, IfErr, IfOk, IfSome, OnOk};
ghost use Rattle.opgp_codec.specs.declared.draft_error.DraftError.TheVariants as error;
ghost use Rattle.opgp_codec.specs.Draft.{DraftHas, IsDrafted, IsInMemory, StoreHas, StoreIsMemory};
ghost use Rattle.opgp_codec.specs.Spool.{IsEmptied, SomeFailed, spool_in};
ghost use Rattle.opgp_codec.specs.Writing.{Puts, octets_text};
ghost use Rattle.opgp_io.specs.Held.{held_failed, held_octets};

use crate::draft_error::DraftError;
use crate::out::Out;
use crate::spool::Spool;
use crate::spooled::{Spooled, put_all};
use crate::writing::{Text, add_text, put};
use opgp_io::{Buffer, Held, Output, Sink};
use opgp_octets::OutOfMemory;
use std::alloc::{AllocError, Global};
use std::io;

/// A text that is held, in memory or in a spool, until all of it is known, and then written. In
/// memory it is in pieces that are never copied to grow.
#[derive(Drop)]
pub struct Draft<S> {
    store: Store<S>,
    buffer: Buffer,
}

/// Where a text is held.
#[derive(Drop)]
enum Store<S> {
    Memory(Held),
    Spool(Spooled<S>),
}

/// What a sink in memory holds, in binary or as one block of armor.
#[derive(Clone, Copy)]
struct HeldText<'a> {
    out: Out,
    held: &'a Held,
}

impl Text for HeldText<'_> {
    ghost octets = { λ text. octets_text text.out (held_octets text.held.now) };

    fn add<W: Sink>(self, output: &mut Output<'_, W>) -> io::Result<()> {
        add_text(output, self.out, self.held)
    }
}

impl<S: Spool + Drop> Draft<S> {
    /// Nothing yet, to be held in this spool, which is to be empty, or in memory if there is none.
    /// Fails only when out of memory.
    pub fn new(alloc: Global, spool: Option<S>) -> Result<Draft<S>, OutOfMemory>
        requires { IfSome spool (λ s. (S.serves ≡ true) × (S.tells ≡ true → S.holds s ≡ [])) }
        ensures text { IfOk result (λ d. DraftHas S.serves S.tells S.holds S.has_failed d []) }
        ensures memory { spool ≡ None → IfOk result IsInMemory }
    {
        let store = store_of(alloc, spool)?;
        let buffer = Buffer::new(alloc)?;
        Ok(Draft { store, buffer })
    }

    /// Adds a text. Fails only when out of memory; nothing is known of what is held then. That a
    /// spool has failed shows when the draft is written.
    pub fn add<T: Text + Copy>(&mut self, text: T) -> Result<(), OutOfMemory>
        ensures text { OnOk result ((given : List ℕ)
            → DraftHas S.serves S.tells S.holds S.has_failed self.old given
            → DraftHas S.serves S.tells S.holds S.has_failed self.new (given ++ T.octets text)) }
        ensures memory { IsInMemory self.old → IsInMemory self.new }
    {
        match &mut self.store {
            Store::Memory(held) => hold(held, &mut self.buffer, text),
            Store::Spool(spooled) => {
                spool_text(spooled, &mut self.buffer, text);
                Ok(())
            }
        }
    }

    /// Writes it, in binary or as one block of armor. The condition is that the sink hasn't failed.
    ///
    /// Allocates nothing. The errors are `Write`: the sink has failed, and `Spool`: the spool has,
    /// now or in an earlier addition. Of a text in memory it is `Write`. The sink holds a prefix of
    /// the text then.
    pub fn write<W: Sink>(self, out: Out, writer: &mut W) -> Result<(), DraftError>
        requires { W.has_failed writer.old ≡ false }
        ensures drafted { (text : List ℕ) → DraftHas S.serves S.tells S.holds S.has_failed self text
            → IsDrafted S.serves S.tells W.held W.has_failed writer.old writer.new result
            (octets_text out text) }
        ensures memory { IsInMemory self → IfErr result (λ e. e ≡ error.Write) }
        ensures failed { result ≡ Err error.Spool → SomeFailed S.tells S.holds S.has_failed }
    {
        let Draft { store, mut buffer } = self;
        match store {
            Store::Memory(held) => write_held(&held, &mut buffer, out, writer),
            Store::Spool(spooled) => write_spooled(spooled, &mut buffer, out, writer),
        }
    }
}

/// A place for a text, with nothing in it.
fn store_of<S: Spool>(alloc: Global, spool: Option<S>) -> Result<Store<S>, OutOfMemory>
    requires { IfSome spool (λ s. (S.serves ≡ true) × (S.tells ≡ true → S.holds s ≡ [])) }
    ensures text { IfOk result (λ s. StoreHas S.serves S.tells S.holds S.has_failed s []) }
    ensures memory { spool ≡ None → IfOk result StoreIsMemory }
{
    match spool {
        Some(spool) => Ok(Store::Spool(Spooled::new(spool))),
        None => {
            let held = Held::new(alloc)?;
            Ok(Store::Memory(held))
        }
    }
}

/// Adds a text to what is held in memory.
fn hold<T: Text + Copy>(held: &mut Held, buffer: &mut Buffer, text: T) -> Result<(), OutOfMemory>
    ensures { OnOk result (held_octets held.new ≡ held_octets held.old ++ T.octets text) }
{
    if held.failed() {
        return Err(AllocError);
    }
    let mut output = Output::new(held, buffer);
    match put(&mut output, text) {
        Ok(()) => Ok(()),
        Err(_) => Err(AllocError),
    }
}

/// Adds a text to what a spool holds, unless that has failed or fails.
fn spool_text<S: Spool, T: Text + Copy>(spooled: &mut Spooled<S>, buffer: &mut Buffer, text: T)
    ensures { S.has_failed (spool_in spooled.new) ≡ false
        → (S.has_failed (spool_in spooled.old) ≡ false) × (S.tells ≡ true
        → S.holds (spool_in spooled.new) ≡ S.holds (spool_in spooled.old) ++ T.octets text) }
{
    if spooled.failed() {
        return;
    }
    let mut output = Output::new(spooled, buffer);
    let _ = put(&mut output, text);
}

/// Writes what is held in memory. The error is `Write`.
fn write_held<W: Sink>(
    held: &Held,
    buffer: &mut Buffer,
    out: Out,
    writer: &mut W,
) -> Result<(), DraftError>
    requires { W.has_failed writer.old ≡ false }
    ensures written { Puts W.held W.has_failed writer.old writer.new result
        (octets_text out (held_octets held.now)) }
    ensures only { IfErr result (λ e. e ≡ error.Write) }
{
    let mut output = Output::new(writer, buffer);
    match put(&mut output, HeldText { out, held }) {
        Ok(()) => Ok(()),
        Err(_) => Err(DraftError::Write),
    }
}

/// Writes what a spool holds, unless that has failed.
fn write_spooled<W: Sink, S: Spool + Drop>(
    spooled: Spooled<S>,
    buffer: &mut Buffer,
    out: Out,
    writer: &mut W,
) -> Result<(), DraftError>
    requires { W.has_failed writer.old ≡ false }
    ensures emptied { (text : List ℕ)
        → (S.has_failed (spool_in spooled) ≡ false → S.tells ≡ true
        → S.holds (spool_in spooled) ≡ text)
        → IsEmptied S.tells W.held W.has_failed writer.old writer.new result
        (octets_text out text) }
    ensures failed { result ≡ Err error.Spool → SomeFailed S.tells S.holds S.has_failed }
{
    if spooled.failed() {
        return Err(DraftError::Spool);
    }
    let mut output = Output::new(writer, buffer);
    put_all(&mut output, out, spooled.into_spool())
}
