//! The lines that show packets as they are, without an allocation.

ghost use Rattle.std.specs.Prelude.{◌≡◌, ◌++◌, false, codes, map};
ghost use Rattle.opgp_frame.specs.View.{viewed};
ghost use Rattle.opgp_octets.specs.Octets.{IsBodySized};
ghost use Rattle.opgp_octets.specs.SubpacketKind.{subpacket_kind_of};
ghost use Rattle.opgp_packet.specs.Subs.{subs_to_come};
ghost use Rattle.opgp_packet.specs.SubView.{kind_shown, sub_shown};
ghost use Rattle.opgp_packet.specs.MeaningReading.{meaning_of};
ghost use Rattle.opgp_packet.specs.SubMeaning.{meaning_shown};
ghost use Rattle.opgp_codec.specs.Packets.{block_value};
ghost use Rattle.opgp_stack.specs.Showing.{area_lines, area_name, bit_name, content_lines};
ghost use Rattle.opgp_stack.specs.Showing.{form_name, header_line, meaning_name, packet_lines};
ghost use Rattle.opgp_stack.specs.Showing.{shown, shown_blocks, signature_lines, subpacket_start};
ghost use Rattle.opgp_io.specs.Output.{Extends, sink_of};

use opgp_frame::{Form, Placed, PlacedView};
use opgp_io::{Output, Sink, Word};
use opgp_keyring::BlockOf;
use opgp_octets::PacketType;
use opgp_packet::{SigView, SubMeaning, SubView, Subs};
use std::io;

/// An area of a signature.
#[derive(Clone, Copy)]
pub(crate) enum Area {
    Hashed,
    Unhashed,
}

/// The form of a packet's header, between its type and its length.
fn form_text(form: &Form) -> &'static [u8]
    ensures { result.now ≡ codes " form " ++ form_name form.now ++ codes " length " }
{
    match form {
        Form::OldOne => b" form old1 length ",
        Form::OldTwo => b" form old2 length ",
        Form::OldFour => b" form old4 length ",
        Form::NewOne => b" form new1 length ",
        Form::NewTwo => b" form new2 length ",
        Form::NewFive => b" form new5 length ",
        Form::Partial(_) => b" form part length ",
    }
}

/// What the line of a subpacket begins with.
fn area_text(area: Area) -> &'static [u8]
    ensures { result.now ≡ codes "  " ++ area_name area ++ codes " kind " }
{
    match area {
        Area::Hashed => b"  hashed kind ",
        Area::Unhashed => b"  unhashed kind ",
    }
}

/// Bit 7 of a subpacket's type, between its kind and its length.
fn critical_text(bit: bool) -> &'static [u8]
    ensures { result.now ≡ codes " critical " ++ bit_name bit ++ codes " length " }
{
    if bit {
        b" critical 1 length "
    } else {
        b" critical 0 length "
    }
}

/// What is known of a subpacket.
fn meaning_text(meaning: SubMeaning<'_>) -> &'static [u8]
    ensures { result.now ≡ codes " " ++ meaning_name (meaning_shown meaning.entry) }
{
    match meaning {
        SubMeaning::Unfit => b" unfit",
        SubMeaning::Unknown => b" unknown",
        _ => b" typed",
    }
}

/// Adds the line of a packet.
pub(crate) fn add_header<W: Sink>(
    output: &mut Output<'_, W>,
    placed: PlacedView<'_>,
) -> io::Result<()>
    requires { W.has_failed (sink_of output.old) ≡ false }
    ensures { Extends W.held W.has_failed output.old output.new result
        (header_line (viewed placed.entry)) }
{
    let packet = placed.packet;
    let kind = packet.kind() as u64;
    let form = form_text(packet.form());
    let length = packet.body().len() as u64;
    output.add_words(&[
        Word::Text(b"block "),
        Word::Decimal(placed.block),
        Word::Text(b" at "),
        Word::Decimal(placed.pos),
        Word::Text(b" type "),
        Word::Decimal(kind),
        Word::Text(form),
        Word::Decimal(length),
        Word::Text(b"\n"),
    ])
}

/// Adds the line of a subpacket, with this end.
pub(crate) fn add_subpacket<W: Sink>(
    output: &mut Output<'_, W>,
    area: Area,
    subpacket: SubView<'_>,
    meaning: SubMeaning<'_>,
    end: &[u8],
) -> io::Result<()>
    requires sound { W.has_failed (sink_of output.old) ≡ false }
    requires meaning { meaning_shown meaning
        ≡ meaning_of (subpacket_kind_of (kind_shown (sub_shown subpacket).kind))
        (sub_shown subpacket).octets }
    ensures { Extends W.held W.has_failed output.old output.new result
        (subpacket_start area (sub_shown subpacket.entry) ++ end.now) }
{
    let kind = subpacket.kind() as u64;
    let amount = subpacket.len().amount() as u64;
    output.add_words(&[
        Word::Text(area_text(area)),
        Word::Decimal(kind),
        Word::Text(critical_text(subpacket.critical())),
        Word::Decimal(amount),
        Word::Text(meaning_text(meaning)),
        Word::Text(end),
    ])
}

/// Adds the lines of an area.
fn add_area<W: Sink>(
    output: &mut Output<'_, W>,
    area: Area,
    mut subpackets: Subs<'_>,
) -> io::Result<()>
    requires { W.has_failed (sink_of output.old) ≡ false }
    ensures { Extends W.held W.has_failed output.old output.new result
        (area_lines area (subs_to_come subpackets.entry)) }
{
    'subpackets: while let Some(subpacket) = subpackets.next() {
        add_subpacket(output, area, subpacket, subpacket.meaning(), b"\n")?;
    }
    Ok(())
}

/// Adds the lines of a signature's areas.
fn add_areas<W: Sink>(
    output: &mut Output<'_, W>,
    hashed: Subs<'_>,
    unhashed: Subs<'_>,
) -> io::Result<()>
    requires { W.has_failed (sink_of output.old) ≡ false }
    ensures { Extends W.held W.has_failed output.old output.new result
        (area_lines Area.Hashed (subs_to_come hashed.entry)
        ++ area_lines Area.Unhashed (subs_to_come unhashed.entry)) }
{
    add_area(output, Area::Hashed, hashed)?;
    add_area(output, Area::Unhashed, unhashed)
}

/// Adds the lines of a signature's subpackets; those of versions 4 and 6 have some.
fn add_signature<W: Sink>(output: &mut Output<'_, W>, body: &[u8]) -> io::Result<()>
    requires small { IsBodySized body.now }
    requires sound { W.has_failed (sink_of output.old) ≡ false }
    ensures { Extends W.held W.has_failed output.old output.new result (signature_lines body.now) }
{
    match SigView::parse_body(body) {
        Ok(SigView::Four(view)) => add_areas(output, view.hashed(), view.unhashed()),
        Ok(SigView::Six(view)) => add_areas(output, view.hashed(), view.unhashed()),
        Ok(SigView::Three(_) | SigView::Other(_)) | Err(_) => Ok(()),
    }
}

/// Adds the lines of what a packet holds.
fn add_content<W: Sink>(output: &mut Output<'_, W>, kind: u8, body: &[u8]) -> io::Result<()>
    requires small { IsBodySized body.now }
    requires sound { W.has_failed (sink_of output.old) ≡ false }
    ensures { Extends W.held W.has_failed output.old output.new result
        (content_lines kind body.now) }
{
    if kind == PacketType::Signature.number() {
        return add_signature(output, body);
    }
    Ok(())
}

/// Adds the lines of a packet.
pub(crate) fn add_packet<W: Sink>(
    output: &mut Output<'_, W>,
    placed: PlacedView<'_>,
) -> io::Result<()>
    requires { W.has_failed (sink_of output.old) ≡ false }
    ensures { Extends W.held W.has_failed output.old output.new result
        (packet_lines (viewed placed.entry)) }
{
    add_header(output, placed)?;
    add_content(output, placed.packet.kind(), placed.packet.body())
}

/// Adds the lines of packets.
fn add_packets<W: Sink>(output: &mut Output<'_, W>, packets: &[Placed]) -> io::Result<()>
    requires { W.has_failed (sink_of output.old) ≡ false }
    ensures { Extends W.held W.has_failed output.old output.new result (shown packets.now) }
{
    for placed in packets {
        add_packet(output, PlacedView::of(placed))?;
    }
    Ok(())
}

/// Adds the lines of all packets of blocks.
pub(crate) fn add_shown<W: Sink>(output: &mut Output<'_, W>, blocks: &[BlockOf]) -> io::Result<()>
    requires { W.has_failed (sink_of output.old) ≡ false }
    ensures { Extends W.held W.has_failed output.old output.new result
        (shown_blocks (map block_value blocks.now)) }
{
    for block in blocks {
        add_packets(output, &block.packets)?;
    }
    Ok(())
}
