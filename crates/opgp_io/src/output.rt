//! A buffered writer that allocates nothing.

ghost use Rattle.std.specs.Prelude.{◌≡◌, ◌++◌, [], true, false, OnOk};
ghost use Rattle.opgp_io.specs.Added.{Adds};
ghost use Rattle.opgp_io.specs.Output.{Extends, sink_name, sink_of, state_of, waiting_in};

use crate::buffer::{Buffer, SIZE};
use crate::sink::Sink;
use crate::writing::put_all;
use std::io;

/// A writer into a sink. Octets wait in a buffer until it is full, or until [`Output::finish`].
///
/// No call allocates. After an error the sink has failed, and holds a prefix of what was added.
#[derive(Drop)]
pub struct Output<'a, W> {
    sink: &'a mut W,
    pub(crate) buffer: &'a mut Buffer,
}

impl<'a, W: Sink> Output<'a, W> {
    /// An output to which nothing was added: what an earlier one left in the buffer is dropped.
    pub fn new(sink: &'a mut W, buffer: &'a mut Buffer) -> Self
        ensures same { sink_name result ≡ sink.entry.ghost_name }
        ensures kept { sink_of result ≡ sink.old }
        ensures empty { waiting_in result ≡ [] }
    {
        buffer.clear();
        Output { sink, buffer }
    }

    /// Adds octets. Pieces of 65,536 octets or more aren't copied.
    pub fn add(&mut self, octets: &[u8]) -> io::Result<()>
        requires { W.has_failed (sink_of self.old) ≡ false }
        ensures { Extends W.held W.has_failed self.old self.new result octets.now }
    {
        if octets.len() <= self.buffer.room() {
            self.buffer.hold(octets);
            return Ok(());
        }
        self.add_past_room(octets)
    }

    /// Adds octets and then others, as two calls of [`Output::add`] do.
    pub fn add_both(&mut self, front: &[u8], back: &[u8]) -> io::Result<()>
        requires { W.has_failed (sink_of self.old) ≡ false }
        ensures { Extends W.held W.has_failed self.old self.new result (front.now ++ back.now) }
    {
        if self.hold_both(front, back) {
            return Ok(());
        }
        self.add_two(front, back)
    }

    /// Adds octets and then others, and returns true; or returns false and changes nothing, if
    /// there is no room for both in the buffer. Nothing is written into the sink.
    #[inline]
    pub fn hold_both(&mut self, front: &[u8], back: &[u8]) -> bool
        requires { W.has_failed (sink_of self.old) ≡ false }
        ensures same { sink_name self.new ≡ sink_name self.old }
        ensures held { result ≡ true → Adds (state_of W.held W.has_failed self.old)
            (state_of W.held W.has_failed self.new) (front.now ++ back.now) }
        ensures left { result ≡ false → state_of W.held W.has_failed self.new
            ≡ state_of W.held W.has_failed self.old }
    {
        self.buffer.hold_both(front, back)
    }

    /// Adds octets and then others, even if they don't fit the buffer.
    #[inline(never)]
    fn add_two(&mut self, front: &[u8], back: &[u8]) -> io::Result<()>
        requires { W.has_failed (sink_of self.old) ≡ false }
        ensures { Extends W.held W.has_failed self.old self.new result (front.now ++ back.now) }
    {
        self.add(front)?;
        self.add(back)
    }

    /// Adds octets, even if they don't fit the buffer.
    #[inline(never)]
    fn add_past_room(&mut self, octets: &[u8]) -> io::Result<()>
        requires { W.has_failed (sink_of self.old) ≡ false }
        ensures { Extends W.held W.has_failed self.old self.new result octets.now }
    {
        self.finish()?;
        self.add_first(octets)
    }

    /// Adds octets to an empty buffer. Large pieces go straight to the sink.
    fn add_first(&mut self, octets: &[u8]) -> io::Result<()>
        requires empty { waiting_in self.old ≡ [] }
        requires sound { W.has_failed (sink_of self.old) ≡ false }
        ensures { Extends W.held W.has_failed self.old self.new result octets.now }
    {
        if octets.len() < SIZE {
            self.buffer.hold(octets);
            return Ok(());
        }
        put_all(&mut *self.sink, octets)
    }

    /// Writes everything that waits into the sink.
    pub fn finish(&mut self) -> io::Result<()>
        requires { W.has_failed (sink_of self.old) ≡ false }
        ensures added { Extends W.held W.has_failed self.old self.new result [] }
        ensures empty { OnOk result (waiting_in self.new ≡ []) }
    {
        put_all(&mut *self.sink, self.buffer.octets())?;
        self.buffer.clear();
        Ok(())
    }
}
