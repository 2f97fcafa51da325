//! The lines of a keyring's listing, without an allocation.

ghost use Rattle.std.specs.Prelude.{◌≡◌, ◌++◌, false, codes, length};
ghost use Rattle.opgp_octets.specs.Octets.{IsBodySized};
ghost use Rattle.hex.specs.Hex.{encode_upper};
ghost use Rattle.opgp_packet.specs.Parsed.{body_octets};
ghost use Rattle.opgp_frame.specs.Packet.{PacketValue};
ghost use Rattle.opgp_keyring.specs.Content.{IsKept, content_kind, content_octets};
ghost use Rattle.opgp_keyring.specs.Packets.{packets_left};
ghost use Rattle.opgp_packet.specs.SigView.{sig_view_value};
ghost use Rattle.opgp_stack.specs.Listing.{attribute_line, behind_text, dated_key_line, filler_line};
ghost use Rattle.opgp_stack.specs.Listing.{key_fields_in, key_line, key_start, listing, number_at};
ghost use Rattle.opgp_stack.specs.Listing.{opaque_text, packet_line, signature_line};
ghost use Rattle.opgp_stack.specs.Listing.{signature_text, typed_start};
ghost use Rattle.opgp_stack.specs.Listing.{key_names, key_numbers, user_id_line};
ghost use Rattle.opgp_state.specs.Date.{date_word};
ghost use Rattle.opgp_stack.specs.KeySize.{key_size, size_words};
ghost use Rattle.opgp_stack.specs.Role.{role_name};
ghost use Rattle.opgp_io.specs.Output.{Extends, sink_of};

use crate::key_size::{add_size, size_of};
use opgp_hash::{KeyId, fingerprint_of_view};
use opgp_io::{Output, Sink, Word};
use opgp_keyring::{Content, Packets};
use opgp_packet::{AttributeView, KeyView, SigView};
use opgp_state::add_date_word;
use std::io;

/// What a key's line begins with.
#[derive(Clone, Copy)]
pub(crate) enum Role {
    Primary,
    Subkey,
}

/// Adds a word.
fn add_role<W: Sink>(output: &mut Output<'_, W>, role: Role) -> io::Result<()>
    requires { W.has_failed (sink_of output.old) ≡ false }
    ensures { Extends W.held W.has_failed output.old output.new result (role_name role) }
{
    match role {
        Role::Primary => output.add(b"pub"),
        Role::Subkey => output.add(b"sub"),
    }
}

/// Adds a version, an algorithm and a time of creation.
fn add_numbers<W: Sink>(
    output: &mut Output<'_, W>,
    version: u8,
    created: u32,
    algorithm: u8,
) -> io::Result<()>
    requires { W.has_failed (sink_of output.old) ≡ false }
    ensures { Extends W.held W.has_failed output.old output.new result
        (key_numbers version created algorithm) }
{
    output.add_words(&[
        Word::Text(b" v"),
        Word::Decimal(version as u64),
        Word::Text(b" alg "),
        Word::Decimal(algorithm as u64),
        Word::Text(b" created "),
        Word::Decimal(created as u64),
        Word::Text(b" "),
    ])
}

/// Adds a fingerprint and a key ID.
fn add_names<W: Sink>(output: &mut Output<'_, W>, print: &[u8], id: &[u8]) -> io::Result<()>
    requires { W.has_failed (sink_of output.old) ≡ false }
    ensures { Extends W.held W.has_failed output.old output.new result
        (key_names print.now id.now) }
{
    output.add_hex(print)?;
    add_id(output, id)
}

/// Adds a key ID.
fn add_id<W: Sink>(output: &mut Output<'_, W>, id: &[u8]) -> io::Result<()>
    requires { W.has_failed (sink_of output.old) ≡ false }
    ensures { Extends W.held W.has_failed output.old output.new result
        (codes " " ++ encode_upper id.now) }
{
    output.add_words(&[Word::Text(b" "), Word::Hex(id)])
}

/// Adds the line of a key, but for its end.
fn add_key_start<W: Sink>(
    output: &mut Output<'_, W>,
    role: Role,
    key: KeyView<'_>,
) -> io::Result<()>
    requires { W.has_failed (sink_of output.old) ≡ false }
    ensures { Extends W.held W.has_failed output.old output.new result
        (key_start (role_name role) (body_octets key.entry)) }
{
    opgp_packet::key_laws::written(&key);
    let print = fingerprint_of_view(key);
    let KeyId(id) = print.key_id();
    add_role(output, role)?;
    add_numbers(output, key.version(), key.created(), key.algorithm())?;
    add_names(output, print.octets(), &id)
}

/// Adds the line of a key.
pub(crate) fn add_key<W: Sink>(
    output: &mut Output<'_, W>,
    role: Role,
    key: KeyView<'_>,
) -> io::Result<()>
    requires { W.has_failed (sink_of output.old) ≡ false }
    ensures { Extends W.held W.has_failed output.old output.new result
        (key_line (role_name role) (body_octets key.entry)) }
{
    add_key_start(output, role, key)?;
    output.add(b"\n")
}

/// Adds the date of a key's creation, how large it is, and the line's end.
fn add_date_and_size<W: Sink>(output: &mut Output<'_, W>, key: KeyView<'_>) -> io::Result<()>
    requires { W.has_failed (sink_of output.old) ≡ false }
    ensures { Extends W.held W.has_failed output.old output.new result
        (date_word (number_at (key_fields_in (body_octets key.entry)) 1)
        ++ size_words (key_size (body_octets key.entry))) }
{
    opgp_packet::key_laws::written(&key);
    let size = size_of(key);
    add_date_word(output, key.created() as u64)?;
    add_size(output, size)
}

/// Adds the line of a key, with the date of its creation and how large it is.
pub(crate) fn add_dated_key<W: Sink>(
    output: &mut Output<'_, W>,
    role: Role,
    key: KeyView<'_>,
) -> io::Result<()>
    requires { W.has_failed (sink_of output.old) ≡ false }
    ensures { Extends W.held W.has_failed output.old output.new result
        (dated_key_line (role_name role) (body_octets key.entry)) }
{
    add_key_start(output, role, key)?;
    add_date_and_size(output, key)
}

/// Adds the line of a user ID.
pub(crate) fn add_user_id<W: Sink>(output: &mut Output<'_, W>, octets: &[u8]) -> io::Result<()>
    requires { W.has_failed (sink_of output.old) ≡ false }
    ensures { Extends W.held W.has_failed output.old output.new result (user_id_line octets.now) }
{
    output.add_words(&[
        Word::Text(b"uid \""),
        Word::Escaped(octets),
        Word::Text(b"\"\n"),
    ])
}

/// Adds the line of a user attribute.
pub(crate) fn add_attribute<W: Sink>(
    output: &mut Output<'_, W>,
    attribute: AttributeView<'_>,
) -> io::Result<()>
    requires { W.has_failed (sink_of output.old) ≡ false }
    ensures { Extends W.held W.has_failed output.old output.new result
        (attribute_line (body_octets attribute.entry)) }
{
    let count = attribute.subpackets().count() as u64;
    output.add_words(&[Word::Text(b"uat "), Word::Decimal(count), Word::Text(b"\n")])
}

/// Adds the line of a filler.
fn add_filler<W: Sink>(output: &mut Output<'_, W>, kind: u8, body: &[u8]) -> io::Result<()>
    requires { W.has_failed (sink_of output.old) ≡ false }
    ensures { Extends W.held W.has_failed output.old output.new result
        (filler_line kind (length body.now)) }
{
    output.add_words(&[
        Word::Text(b"pkt "),
        Word::Decimal(kind as u64),
        Word::Text(b" "),
        Word::Decimal(body.len() as u64),
        Word::Text(b"\n"),
    ])
}

/// What follows the numbers in the line of a parsed signature.
#[derive(Clone, Copy)]
pub(crate) enum Behind {
    /// The line's end.
    End,
    /// The word before the left 16 bits of a hash.
    Left,
}

/// Adds what the line of a parsed signature begins with, and what follows.
pub(crate) fn add_typed<W: Sink>(
    output: &mut Output<'_, W>,
    version: u8,
    kind: u8,
    algorithm: u8,
    hash: u8,
    behind: Behind,
) -> io::Result<()>
    requires { W.has_failed (sink_of output.old) ≡ false }
    ensures { Extends W.held W.has_failed output.old output.new result
        (typed_start version kind algorithm hash ++ behind_text behind) }
{
    let last: &[u8] = match behind {
        Behind::End => b"\n",
        Behind::Left => b" left ",
    };
    output.add_words(&[
        Word::Text(b"sig v"),
        Word::Decimal(version as u64),
        Word::Text(b" type "),
        Word::Hex(&[kind]),
        Word::Text(b" alg "),
        Word::Decimal(algorithm as u64),
        Word::Text(b" hash "),
        Word::Decimal(hash as u64),
        Word::Text(last),
    ])
}

/// Adds the line of a signature that is kept as it is.
pub(crate) fn add_opaque<W: Sink>(output: &mut Output<'_, W>, body: &[u8]) -> io::Result<()>
    requires { W.has_failed (sink_of output.old) ≡ false }
    ensures { Extends W.held W.has_failed output.old output.new result
        (opaque_text (length body.now)) }
{
    output.add_words(&[
        Word::Text(b"sig opaque "),
        Word::Decimal(body.len() as u64),
        Word::Text(b"\n"),
    ])
}

/// Adds the line of a signature.
pub(crate) fn add_signature<W: Sink>(
    output: &mut Output<'_, W>,
    signature: SigView<'_>,
) -> io::Result<()>
    requires { W.has_failed (sink_of output.old) ≡ false }
    ensures { Extends W.held W.has_failed output.old output.new result
        (signature_text (sig_view_value signature.entry)) }
{
    match signature {
        SigView::Three(view) => {
            let (kind, algorithm, hash) = (view.kind(), view.algorithm(), view.hash());
            add_typed(output, 3, kind, algorithm, hash, Behind::End)
        }
        SigView::Four(view) => {
            let (kind, algorithm, hash) = (view.kind(), view.algorithm(), view.hash());
            add_typed(output, 4, kind, algorithm, hash, Behind::End)
        }
        SigView::Six(view) => {
            let (kind, algorithm, hash) = (view.kind(), view.algorithm(), view.hash());
            add_typed(output, 6, kind, algorithm, hash, Behind::End)
        }
        SigView::Other(view) => add_opaque(output, view.body()),
    }
}

/// Adds the line of the body of a signature packet, which may be no signature's.
pub(crate) fn add_body<W: Sink>(output: &mut Output<'_, W>, body: &[u8]) -> io::Result<()>
    requires small { IsBodySized body.now }
    requires sound { W.has_failed (sink_of output.old) ≡ false }
    ensures { Extends W.held W.has_failed output.old output.new result (signature_line body.now) }
{
    match SigView::parse_body(body) {
        Ok(signature) => add_signature(output, signature),
        Err(_) => add_opaque(output, body),
    }
}

/// Adds the line of what a packet of a keyring contains.
pub(crate) fn add_content<W: Sink>(
    output: &mut Output<'_, W>,
    content: Content<'_>,
) -> io::Result<()>
    requires kept { IsKept content }
    requires sound { W.has_failed (sink_of output.old) ≡ false }
    ensures { (p : PacketValue) → p.kind ≡ content_kind content.entry
        → p.body ≡ content_octets content.entry
        → Extends W.held W.has_failed output.old output.new result (packet_line p) }
{
    match content {
        Content::Primary(key) => add_key(output, Role::Primary, key),
        Content::Subkey(key) => add_key(output, Role::Subkey, key),
        Content::UserId(id) => add_user_id(output, id),
        Content::Attribute(attribute) => add_attribute(output, attribute),
        Content::Signature(signature) => add_signature(output, signature),
        Content::Malformed(body) => add_opaque(output, body),
        Content::Filler(kind, body) => add_filler(output, kind, body),
    }
}

/// Adds the lines of all packets that are left.
pub(crate) fn add_listing<W: Sink>(
    output: &mut Output<'_, W>,
    mut packets: Packets<'_>,
) -> io::Result<()>
    requires { W.has_failed (sink_of output.old) ≡ false }
    ensures { Extends W.held W.has_failed output.old output.new result
        (listing (packets_left packets.entry)) }
{
    'packets: while let Some(packet) = packets.next() {
        add_content(output, packet.content())?;
    }
    Ok(())
}
