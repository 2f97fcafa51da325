//! A block that was found.

ghost use Rattle.std.specs.Prelude.{◌≡◌, ◌≤◌, ◌+◌, ◌++◌, length, vec_len, vec_capacity};
ghost use Rattle.opgp_blocks.specs.Blocks.{cleaned, lines_from};

use crate::line::line_at;
use opgp_octets::{OutOfMemory, put};

/// A block that was found in a text: a view of its lines there.
#[derive(Clone, Copy, Debug)]
pub struct FoundBlock<'a> {
    pub(crate) text: &'a [u8],
    pub(crate) first: usize,
    pub(crate) lines: usize,
    pub(crate) at: usize,
    pub(crate) size: usize,
    pub(crate) wanted: usize,
    ghost within: { first ≤ length text.now },
    ghost wanted_is: { wanted ≡ length (cleaned (lines_from lines first text.now)) },
}

impl FoundBlock<'_> {
    ghost use Rattle.std.specs.Prelude.{◌≡◌, ◌≤◌, ◌<◌, ◌+◌, ◌++◌, length, vec_len, vec_capacity};
    ghost use Rattle.std.specs.Prelude.{OnOk, OnErr};
    ghost use Rattle.opgp_blocks.specs.Blocks.{cleaned, lines_from};
    ghost use Rattle.opgp_blocks.specs.View.{found_value};

    /// Where the block begins in the text: the offset of the `-----BEGIN` of its first line.
    pub fn at(&self) -> usize
        ensures { result ≡ (found_value self.now).at }
    {
        self.at
    }

    /// How many octets of the text the block has, up to the end of its last line's content.
    pub fn size(&self) -> usize
        ensures { result ≡ (found_value self.now).size }
    {
        self.size
    }

    /// How many octets [`FoundBlock::write`] writes.
    pub fn cleaned_len(&self) -> usize
        ensures { result ≡ length (found_value self.now).octets }
    {
        self.wanted
    }

    /// Writes the block, cleaned, at the end of `out`: the contents of its lines, each with a line
    /// feed.
    ///
    /// The error is out of memory: `out` gets all its room before anything is written, and is as it
    /// was then.
    pub fn write(&self, out: &mut Vec<u8>) -> Result<(), OutOfMemory>
        ensures ok { OnOk result (out.new.items
            ≡ out.old.items ++ (found_value self.now).octets) }
        ensures err { OnErr result (out.new.items ≡ out.old.items) }
        // It fails only if the vector lacked the room.
        ensures full { OnErr result (vec_capacity out.old
            < vec_len out.old + length (found_value self.now).octets) }
    {
        out.reserve(self.wanted)?;
        put_lines(self.text, self.first, self.lines, out);
        Ok(())
    }
}

/// Writes the contents of so many lines, the first of which begins here, each with a line feed. The
/// condition is that `out` has room for them.
fn put_lines(text: &[u8], first: usize, lines: usize, out: &mut Vec<u8>)
    requires within { first ≤ length text.now }
    requires room { vec_len out.old + length (cleaned (lines_from lines first text.now))
        ≤ vec_capacity out.old }
    ensures { out.new.items ≡ out.old.items ++ cleaned (lines_from lines first text.now) }
{
    let mut left = lines;
    let mut at = first;
    'lines: while left > 0 {
        let Some(line) = line_at(text, at) else {
            return;
        };
        put(line.content, out);
        put(b"\n".as_slice(), out);
        at = line.next;
        left -= 1;
    }
}
