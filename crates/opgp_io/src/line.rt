//! A line, word by word.

ghost use Rattle.std.specs.Prelude.{◌≡◌, false};
ghost use Rattle.opgp_io.specs.Line.{line_text, word_text};
ghost use Rattle.opgp_io.specs.Output.{Extends, sink_of};

use crate::output::Output;
use crate::sink::Sink;
use std::io;

/// A word of a line.
#[derive(Clone, Copy)]
pub enum Word<'a> {
    /// Octets as they are.
    Text(&'a [u8]),
    /// A number in decimal.
    Decimal(u64),
    /// Octets in upper-case hexadecimal, two digits an octet.
    Hex(&'a [u8]),
    /// Octets as a text: printable ASCII other than `"` and `\` as it is, and each other octet as
    /// `\x` and two upper-case digits.
    Escaped(&'a [u8]),
}

impl<'a, W: Sink> Output<'a, W> {
    /// Adds a word.
    fn add_word(&mut self, word: &Word<'_>) -> io::Result<()>
        requires { W.has_failed (sink_of self.old) ≡ false }
        ensures { Extends W.held W.has_failed self.old self.new result (word_text word.now) }
    {
        match *word {
            Word::Text(octets) => self.add(octets),
            Word::Decimal(n) => self.add_decimal(n),
            Word::Hex(octets) => self.add_hex(octets),
            Word::Escaped(octets) => self.add_escaped(octets),
        }
    }

    /// Adds words, one after the other. A line feed is a word like any other.
    pub fn add_words(&mut self, words: &[Word<'_>]) -> io::Result<()>
        requires { W.has_failed (sink_of self.old) ≡ false }
        ensures { Extends W.held W.has_failed self.old self.new result (line_text words.now) }
    {
        if self.buffer.hold_words(words) {
            return Ok(());
        }
        self.add_each(words)
    }

    /// Adds words, even if they don't fit the buffer.
    #[inline(never)]
    fn add_each(&mut self, words: &[Word<'_>]) -> io::Result<()>
        requires { W.has_failed (sink_of self.old) ≡ false }
        ensures { Extends W.held W.has_failed self.old self.new result (line_text words.now) }
    {
        for word in words {
            self.add_word(word)?;
        }
        Ok(())
    }
}
