//! Writes what packets are into a sink.

ghost use Rattle.std.specs.Prelude.{◌≡◌, false, map};
ghost use Rattle.opgp_codec.specs.Packets.{block_value};
ghost use Rattle.opgp_stack.specs.Showing.{shown_blocks};
ghost use Rattle.opgp_codec.specs.Written.{IsWritten};

use crate::showing::add_shown;
use opgp_codec::{EngineError, Text, write};
use opgp_io::{Output, Sink};
use opgp_keyring::BlockOf;
use std::alloc::Global;
use std::io;

/// Lines for each packet, with those of its subpackets.
#[derive(Clone, Copy)]
struct ShownText<'a> {
    blocks: &'a [BlockOf],
}

impl Text for ShownText<'_> {
    ghost octets = { λ text. shown_blocks (map block_value text.blocks.now) };

    fn add<W: Sink>(self, output: &mut Output<'_, W>) -> io::Result<()> {
        add_shown(output, self.blocks)
    }
}

/// Writes a line for each packet of blocks, and one for each subpacket of a version 4 or 6
/// signature after its own. The condition is that the sink hasn't failed.
///
/// - A packet: `block <b> at <pos> type <n> form <f> length <n>`. The place is that of its first
///   octet in its block, the length that of its body. The form of its header is `old1`, `old2`,
///   `old4`, `new1`, `new2`, `new5`, or `part` for partial lengths (RFC 9580, 4.2).
/// - A subpacket (5.2.3.7): two spaces, `hashed` or `unhashed`, `kind <n> critical <0 or 1>`, and
///   `length <n>`, which counts the type octet. Then comes `typed`; or `unfit`, if its data hasn't
///   the form of its kind; or `unknown`, if its kind is unknown.
///
/// Numbers are decimal.
///
/// All memory is allocated before the first octet is written. The errors are `Memory`, with
/// nothing written, and `Write`: the sink has failed, and holds a prefix of the lines.
pub fn write_shown<W: Sink>(
    alloc: Global,
    blocks: &[BlockOf],
    writer: &mut W,
) -> Result<(), EngineError>
    requires { W.has_failed writer.old ≡ false }
    ensures { IsWritten W.held W.has_failed writer.old writer.new result
        (shown_blocks (map block_value blocks.now)) }
{
    write(alloc, ShownText { blocks }, writer)
}
