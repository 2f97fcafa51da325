//! Words of a line, without memory.

ghost use Rattle.std.specs.Prelude.{◌≡◌, ◌<◌, ◌≤◌, ◌*◌, false, length, take, slice_index};
ghost use Rattle.std.specs.Fmt.{decimal};
ghost use Rattle.hex.specs.Hex.{encode_upper};
ghost use Rattle.opgp_io.specs.Output.{Extends, sink_of};
ghost use Rattle.opgp_io.specs.Texts.{escape, escaped, is_plain};

use crate::output::Output;
use crate::sink::Sink;
use opgp_octets::write_digits;
use std::io;

/// How many octets are turned into digits at a time.
const PIECE: usize = 32;

/// Printable ASCII other than `"` and `\`.
fn is_plain(octet: u8) -> bool
    ensures { result ≡ is_plain octet }
{
    32 <= octet && octet <= 126 && octet != b'"' && octet != b'\\'
}

/// How many octets come before the first that has to be escaped.
pub(crate) fn plain_len(octets: &[u8]) -> usize
    ensures within { result ≤ length octets.now }
    ensures plain { escaped (take result octets.now) ≡ take result octets.now }
    ensures other { result < length octets.now
        → is_plain (slice_index octets.now result) ≡ false }
{
    for (i, octet) in octets.iter().enumerate() {
        if !is_plain(*octet) {
            return i;
        }
    }
    octets.len()
}

impl<'a, W: Sink> Output<'a, W> {
    /// Adds a number in decimal.
    pub fn add_decimal(&mut self, n: u64) -> io::Result<()>
        requires { W.has_failed (sink_of self.old) ≡ false }
        ensures { Extends W.held W.has_failed self.old self.new result (decimal n) }
    {
        let mut digits = itoa::Buffer::new();
        self.add(digits.format(n).as_bytes())
    }

    /// Adds octets in upper-case hexadecimal, two digits an octet.
    pub fn add_hex(&mut self, octets: &[u8]) -> io::Result<()>
        requires { W.has_failed (sink_of self.old) ≡ false }
        ensures { Extends W.held W.has_failed self.old self.new result (encode_upper octets.now) }
    {
        let mut rest = octets;
        'pieces: while rest.len() > 0 {
            let (piece, after) = rest.split_at(rest.len().min(PIECE));
            self.add_digits(piece)?;
            rest = after;
        }
        Ok(())
    }

    /// Adds at most 32 octets in upper-case hexadecimal.
    fn add_digits(&mut self, octets: &[u8]) -> io::Result<()>
        requires short { length octets.now ≤ 32 }
        requires sound { W.has_failed (sink_of self.old) ≡ false }
        ensures { Extends W.held W.has_failed self.old self.new result (encode_upper octets.now) }
    {
        let mut room = [0; 64];
        let digits = &mut room[..2 * octets.len()];
        write_digits(octets, &mut *digits);
        self.add(digits)
    }

    /// Adds octets as a text: printable ASCII other than `"` and `\` as it is, and each other octet
    /// as `\x` and two upper-case digits.
    pub fn add_escaped(&mut self, octets: &[u8]) -> io::Result<()>
        requires { W.has_failed (sink_of self.old) ≡ false }
        ensures { Extends W.held W.has_failed self.old self.new result (escaped octets.now) }
    {
        let mut rest = octets;
        'runs: while rest.len() > 0 {
            let (run, after) = rest.split_at(plain_len(rest));
            self.add(run)?;
            if after.len() == 0 {
                return Ok(());
            }
            self.add_escape(after[0])?;
            rest = &after[1..];
        }
        Ok(())
    }

    /// Adds an octet that has to be escaped.
    fn add_escape(&mut self, octet: u8) -> io::Result<()>
        requires other { is_plain octet ≡ false }
        requires sound { W.has_failed (sink_of self.old) ≡ false }
        ensures { Extends W.held W.has_failed self.old self.new result (escape octet) }
    {
        self.add(b"\\x")?;
        self.add_digits(&[octet])
    }
}
