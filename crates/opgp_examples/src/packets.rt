//! The packets of an input, each as soon as it is complete.

ghost use Rattle.std.specs.Prelude.{◌≡◌, [], OnOk};
ghost use Rattle.opgp.specs.Codec.PacketReader.{IsReading, octets_given, waits};
ghost use Rattle.opgp.specs.Octets.declared.limits.Limits.{Limits};

use anyhow::Result;
use opgp::codec::{Mode, PacketReader};
use opgp::frame::Placed;
use opgp::octets::{Limits, PacketType};
use std::io::BufRead;

/// The greatest number of octets that are pushed at a time.
const PIECE: usize = 65_536;

/// The packets of an input, armored or binary, whether or not they are a keyring: a line for each
/// as soon as it is complete, and in the end the fault of the lowest layer, if there is one.
pub(crate) fn packets<R: BufRead + Drop>(
    rt: &(impl Print + AllocGlobal),
    mut source: R,
) -> Result<()> {
    let limits = Limits::usual();
    let mut reader = PacketReader::new(rt.alloc(), Mode::Auto, limits);
    read_packets(rt, limits, &mut source, &mut reader)?;
    let mut waiting = reader.finish()??;
    'rest: while let Some(placed) = waiting.take() {
        show(rt, &placed)?;
    }
    Ok(())
}

/// Reads a source to its end, or until it is too long, and shows the packets that each piece
/// completes. However many octets come, the reader holds a packet at most, and none waits when the
/// next piece is read.
fn read_packets<R: BufRead + Drop>(
    rt: &(impl Print + AllocGlobal),
    limits: Limits,
    source: &mut R,
    reader: &mut PacketReader,
) -> Result<()>
    requires reading { IsReading limits reader.old }
    requires fresh { octets_given reader.old ≡ 0 }
    ensures { OnOk result (IsReading limits reader.new) }
{
    let mut given = 0;
    'pieces: while given <= limits.input() {
        let buffered = source.fill_buf()?;
        let piece = &buffered[..buffered.len().min(PIECE)];
        let count = piece.len();
        if count == 0 {
            break;
        }
        reader.push(piece)?;
        source.consume(count);
        given += count as u64;
        show_waiting(rt, reader)?;
    }
    Ok(())
}

/// Takes all packets that wait, and shows them.
fn show_waiting(rt: &(impl Print + AllocGlobal), reader: &mut PacketReader) -> Result<()>
    ensures reading { OnOk result ((limits : Limits) → IsReading limits reader.old
        → IsReading limits reader.new) }
    ensures count { OnOk result (octets_given reader.new ≡ octets_given reader.old) }
    ensures none { OnOk result (waits reader.new ≡ []) }
{
    'packets: while let Some(placed) = reader.take() {
        show(rt, &placed)?;
    }
    Ok(())
}

/// A line for a packet: its place, its type, the length of its body.
fn show(rt: &(impl Print + AllocGlobal), placed: &Placed) -> Result<()> {
    let (block, pos) = (placed.block, placed.pos);
    let name = PacketType::from(placed.packet.kind()).name();
    let length = placed.packet.body().len();
    println!(rt; "{block}:{pos} {name}, {length} octets")?;
    Ok(())
}
