//! The lines of packets with their fields, without an allocation.

ghost use Rattle.std.specs.Prelude.{◌≡◌, ◌++◌, Ok, codes, false};
ghost use Rattle.opgp_frame.specs.View.{viewed};
ghost use Rattle.opgp_octets.specs.Octets.{IsBodySized};
ghost use Rattle.opgp_packet.specs.AttributeBody.{attribute};
ghost use Rattle.opgp_packet.specs.FieldReading.{body_at};
ghost use Rattle.opgp_packet.specs.KeyBody.{key};
ghost use Rattle.opgp_packet.specs.LiteralBody.{literal};
ghost use Rattle.opgp_packet.specs.SignatureBody.{signature_at};
ghost use Rattle.opgp_packet.specs.SigView.{sig_view_value};
ghost use Rattle.opgp_packet.specs.SubView.{sub_shown};
ghost use Rattle.opgp_packet.specs.Subs.{subs_to_come};
ghost use Rattle.opgp_stack.specs.Listing.{attribute_line, dated_key_line, signature_line};
ghost use Rattle.opgp_stack.specs.Listing.{user_id_line};
ghost use Rattle.opgp_stack.specs.Role.{role_name};
ghost use Rattle.opgp_stack.specs.Values.{fields_line, format_text, literal_rest, literal_text};
ghost use Rattle.opgp_stack.specs.Values.{literal_words};
ghost use Rattle.opgp_stack.specs.Values.{valued_area, valued_areas};
ghost use Rattle.opgp_stack.specs.Values.{valued_line, valued_lines, where_sound};
ghost use Rattle.opgp_io.specs.Output.{Extends, sink_of};

use crate::listing::{Role, add_attribute, add_dated_key, add_opaque, add_signature, add_user_id};
use crate::showing::{Area, add_header, add_subpacket};
use crate::values::add_value;
use opgp_frame::PlacedView;
use opgp_io::{Output, Sink, Word};
use opgp_octets::PacketType;
use opgp_packet::{AttributeView, KeyView, LiteralView, SigView, SubView, Subs};
use opgp_state::add_date;
use std::io;

/// Adds the line of a subpacket, with what it means.
fn add_valued_subpacket<W: Sink>(
    output: &mut Output<'_, W>,
    area: Area,
    subpacket: SubView<'_>,
) -> io::Result<()>
    requires { W.has_failed (sink_of output.old) ≡ false }
    ensures { Extends W.held W.has_failed output.old output.new result
        (valued_line area (sub_shown subpacket.entry)) }
{
    let meaning = subpacket.meaning();
    add_subpacket(output, area, subpacket, meaning, b"")?;
    add_value(output, meaning, subpacket.octets())
}

/// Adds the lines of an area.
fn add_area<W: Sink>(
    output: &mut Output<'_, W>,
    area: Area,
    mut subpackets: Subs<'_>,
) -> io::Result<()>
    requires { W.has_failed (sink_of output.old) ≡ false }
    ensures { Extends W.held W.has_failed output.old output.new result
        (valued_area area (subs_to_come subpackets.entry)) }
{
    'subpackets: while let Some(subpacket) = subpackets.next() {
        add_valued_subpacket(output, area, subpacket)?;
    }
    Ok(())
}

/// Adds the lines of a signature's areas.
fn add_areas<W: Sink>(
    output: &mut Output<'_, W>,
    hashed: Subs<'_>,
    unhashed: Subs<'_>,
) -> io::Result<()>
    requires { W.has_failed (sink_of output.old) ≡ false }
    ensures { Extends W.held W.has_failed output.old output.new result
        (valued_area Area.Hashed (subs_to_come hashed.entry)
        ++ valued_area Area.Unhashed (subs_to_come unhashed.entry)) }
{
    add_area(output, Area::Hashed, hashed)?;
    add_area(output, Area::Unhashed, unhashed)
}

/// Adds the lines of a signature's subpackets.
fn add_subpackets<W: Sink>(output: &mut Output<'_, W>, signature: SigView<'_>) -> io::Result<()>
    requires { W.has_failed (sink_of output.old) ≡ false }
    ensures { Extends W.held W.has_failed output.old output.new result
        (valued_areas (Ok (sig_view_value signature.entry))) }
{
    match signature {
        SigView::Four(view) => add_areas(output, view.hashed(), view.unhashed()),
        SigView::Six(view) => add_areas(output, view.hashed(), view.unhashed()),
        SigView::Three(_) | SigView::Other(_) => Ok(()),
    }
}

/// Adds the lines of a signature.
fn add_signature_fields<W: Sink>(output: &mut Output<'_, W>, body: &[u8]) -> io::Result<()>
    requires small { IsBodySized body.now }
    requires sound { W.has_failed (sink_of output.old) ≡ false }
    ensures { Extends W.held W.has_failed output.old output.new result
        ((codes "  " ++ signature_line body.now) ++ valued_areas (signature_at body.now)) }
{
    output.add(b"  ")?;
    match SigView::parse_body(body) {
        Ok(signature) => {
            add_signature(output, signature)?;
            add_subpackets(output, signature)
        }
        Err(_) => add_opaque(output, body),
    }
}

/// Adds the line of a key, with its date.
fn add_key_fields<W: Sink>(output: &mut Output<'_, W>, role: Role, body: &[u8]) -> io::Result<()>
    requires small { IsBodySized body.now }
    requires sound { W.has_failed (sink_of output.old) ≡ false }
    ensures { Extends W.held W.has_failed output.old output.new result
        (where_sound (body_at key body.now) (dated_key_line (role_name role) body.now)) }
{
    let key = match KeyView::parse_body(body) {
        Ok(key) => key,
        Err(_) => return Ok(()),
    };
    output.add(b"  ")?;
    add_dated_key(output, role, key)
}

/// Adds the line of a user ID.
fn add_user_id_fields<W: Sink>(output: &mut Output<'_, W>, body: &[u8]) -> io::Result<()>
    requires { W.has_failed (sink_of output.old) ≡ false }
    ensures { Extends W.held W.has_failed output.old output.new result
        (codes "  " ++ user_id_line body.now) }
{
    output.add(b"  ")?;
    add_user_id(output, body)
}

/// Adds the line of a user attribute.
fn add_attribute_fields<W: Sink>(output: &mut Output<'_, W>, body: &[u8]) -> io::Result<()>
    requires small { IsBodySized body.now }
    requires sound { W.has_failed (sink_of output.old) ≡ false }
    ensures { Extends W.held W.has_failed output.old output.new result
        (where_sound (body_at attribute body.now) (attribute_line body.now)) }
{
    let attribute = match AttributeView::parse_body(body) {
        Ok(attribute) => attribute,
        Err(_) => return Ok(()),
    };
    output.add(b"  ")?;
    add_attribute(output, attribute)
}

/// Adds the line of a literal.
fn add_literal_fields<W: Sink>(output: &mut Output<'_, W>, body: &[u8]) -> io::Result<()>
    requires small { IsBodySized body.now }
    requires sound { W.has_failed (sink_of output.old) ≡ false }
    ensures { Extends W.held W.has_failed output.old output.new result
        (literal_text (body_at literal body.now)) }
{
    let literal = match LiteralView::parse_body(body) {
        Ok(literal) => literal,
        Err(_) => return Ok(()),
    };
    add_format(output, literal.format())?;
    let length = literal.content().len();
    add_literal_rest(output, literal.name(), literal.date(), length as u64)
}

/// Adds the format of a literal.
fn add_format<W: Sink>(output: &mut Output<'_, W>, format: u8) -> io::Result<()>
    requires { W.has_failed (sink_of output.old) ≡ false }
    ensures { Extends W.held W.has_failed output.old output.new result (format_text format) }
{
    output.add_words(&[
        Word::Text(b"  lit format \""),
        Word::Escaped(&[format]),
        Word::Text(b"\""),
    ])
}

/// Adds the other fields of a literal, and the line's end.
fn add_literal_rest<W: Sink>(
    output: &mut Output<'_, W>,
    name: &[u8],
    date: u32,
    length: u64,
) -> io::Result<()>
    requires { W.has_failed (sink_of output.old) ≡ false }
    ensures { Extends W.held W.has_failed output.old output.new result
        (literal_rest name.now date length) }
{
    add_literal_words(output, name, date, length)?;
    add_date(output, date)
}

/// Adds the name, the date and the length of a literal.
fn add_literal_words<W: Sink>(
    output: &mut Output<'_, W>,
    name: &[u8],
    date: u32,
    length: u64,
) -> io::Result<()>
    requires { W.has_failed (sink_of output.old) ≡ false }
    ensures { Extends W.held W.has_failed output.old output.new result
        (literal_words name.now date length) }
{
    output.add_words(&[
        Word::Text(b" name \""),
        Word::Escaped(name),
        Word::Text(b"\" date "),
        Word::Decimal(date as u64),
        Word::Text(b" length "),
        Word::Decimal(length),
    ])
}

/// Adds the lines of what a packet says.
fn add_fields<W: Sink>(output: &mut Output<'_, W>, kind: u8, body: &[u8]) -> io::Result<()>
    requires small { IsBodySized body.now }
    requires sound { W.has_failed (sink_of output.old) ≡ false }
    ensures { Extends W.held W.has_failed output.old output.new result (fields_line kind body.now) }
{
    if kind == PacketType::PublicKey.number() {
        return add_key_fields(output, Role::Primary, body);
    }
    if kind == PacketType::PublicSubkey.number() {
        return add_key_fields(output, Role::Subkey, body);
    }
    if kind == PacketType::UserId.number() {
        return add_user_id_fields(output, body);
    }
    if kind == PacketType::UserAttribute.number() {
        return add_attribute_fields(output, body);
    }
    if kind == PacketType::Signature.number() {
        return add_signature_fields(output, body);
    }
    if kind == PacketType::LiteralData.number() {
        return add_literal_fields(output, body);
    }
    Ok(())
}

/// Adds the lines of a packet, with what it says.
pub(crate) fn add_valued<W: Sink>(
    output: &mut Output<'_, W>,
    placed: PlacedView<'_>,
) -> io::Result<()>
    requires { W.has_failed (sink_of output.old) ≡ false }
    ensures { Extends W.held W.has_failed output.old output.new result
        (valued_lines (viewed placed.entry)) }
{
    add_header(output, placed)?;
    add_fields(output, placed.packet.kind(), placed.packet.body())
}
