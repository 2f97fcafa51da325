//! The lines of a keyring's listing with values, without an allocation.

ghost use Rattle.std.specs.Prelude.{◌≡◌, ◌++◌, Ok, codes, false};
ghost use Rattle.hex.specs.Hex.{encode_upper};
ghost use Rattle.opgp_packet.specs.SigView.{sig_view_value};
ghost use Rattle.opgp_packet.specs.SubView.{sub_shown};
ghost use Rattle.opgp_packet.specs.Subs.{subs_to_come};
ghost use Rattle.opgp_report.specs.IssuerName.{name_value};
ghost use Rattle.opgp_report.specs.Signer.{first_some};
ghost use Rattle.opgp_keyring.specs.Member.{member_packet};
ghost use Rattle.opgp_keyring.specs.Packets.{packets_left};
ghost use Rattle.opgp_stack.specs.Listing.{signature_text, typed_start};
ghost use Rattle.opgp_stack.specs.ValuedListing.{created_in, created_words, issuer_words};
ghost use Rattle.opgp_stack.specs.ValuedListing.{valued_listing, valued_packet_line, value_words};
ghost use Rattle.opgp_stack.specs.ValuedListing.{with_values};
ghost use Rattle.opgp_io.specs.Output.{Extends, sink_of};

use crate::listing::{Behind, Role, add_content, add_dated_key, add_signature, add_typed};
use opgp_codec::Text;
use opgp_hash::KeyId;
use opgp_io::{Output, Sink, Word};
use opgp_keyring::{Content, Member, Packets};
use opgp_octets::SubpacketKind;
use opgp_packet::{SigView, SubView, Subs};
use opgp_report::{IssuerName, issuer_named};
use opgp_state::add_date_or_none;
use std::io;

/// The creation time that a subpacket states, in seconds since 1970, if the kind is 2 and there are
/// 4 octets (RFC 9580, 5.2.3.11).
fn created_in(subpacket: SubView<'_>) -> Option<u32>
    ensures { result ≡ created_in (sub_shown subpacket.entry) }
{
    if subpacket.kind() != SubpacketKind::Created.number() {
        return None;
    }
    match subpacket.octets() {
        [a, b, c, d] => Some(u32::from_be_bytes([*a, *b, *c, *d])),
        _ => None,
    }
}

/// The first creation time in an area.
fn first_created(subpackets: Subs<'_>) -> Option<u32>
    ensures { result ≡ first_some created_in (subs_to_come subpackets.entry) }
{
    for subpacket in subpackets {
        if let Some(created) = created_in(subpacket) {
            return Some(created);
        }
    }
    None
}

/// Adds a creation time, or `-` for none.
fn add_created<W: Sink>(output: &mut Output<'_, W>, created: Option<u32>) -> io::Result<()>
    requires { W.has_failed (sink_of output.old) ≡ false }
    ensures { Extends W.held W.has_failed output.old output.new result (created_words created) }
{
    match created {
        Some(time) => { output.add_words(&[Word::Text(b" created "), Word::Decimal(time as u64)]) }
        None => output.add(b" created -"),
    }
}

/// Adds the octets of the name of an issuer.
fn add_named<W: Sink>(output: &mut Output<'_, W>, octets: &[u8]) -> io::Result<()>
    requires { W.has_failed (sink_of output.old) ≡ false }
    ensures { Extends W.held W.has_failed output.old output.new result
        (codes " issuer " ++ encode_upper octets.now) }
{
    output.add_words(&[Word::Text(b" issuer "), Word::Hex(octets)])
}

/// Adds the name of an issuer, or `-` for none.
fn add_issuer<W: Sink>(output: &mut Output<'_, W>, name: IssuerName) -> io::Result<()>
    requires { W.has_failed (sink_of output.old) ≡ false }
    ensures { Extends W.held W.has_failed output.old output.new result
        (issuer_words (name_value name)) }
{
    match name {
        IssuerName::Print(print) => add_named(output, print.octets()),
        IssuerName::Id(id) => {
            let KeyId(octets) = id;
            add_named(output, &octets)
        }
        IssuerName::Unnamed => output.add(b" issuer -"),
    }
}

/// Adds the line of a parsed signature, with its values.
fn add_typed_values<W: Sink>(
    output: &mut Output<'_, W>,
    version: u8,
    kind: u8,
    algorithm: u8,
    hash: u8,
    left: &[u8],
    created: Option<u32>,
    issuer: IssuerName,
) -> io::Result<()>
    requires { W.has_failed (sink_of output.old) ≡ false }
    ensures { Extends W.held W.has_failed output.old output.new result
        (typed_start version kind algorithm hash
        ++ value_words left.now created (name_value issuer)) }
{
    add_typed(output, version, kind, algorithm, hash, Behind::Left)?;
    output.add_hex(left)?;
    add_created(output, created)?;
    add_issuer(output, issuer)?;
    add_date_or_none(output, created)
}

/// Adds the line of a signature, with its values unless it is kept as it is.
fn add_valued_signature<W: Sink>(
    output: &mut Output<'_, W>,
    signature: SigView<'_>,
) -> io::Result<()>
    requires { W.has_failed (sink_of output.old) ≡ false }
    ensures { Extends W.held W.has_failed output.old output.new result
        (with_values (Ok (sig_view_value signature.entry))
        (signature_text (sig_view_value signature.entry))) }
{
    match signature {
        SigView::Three(view) => {
            let (kind, algorithm, hash) = (view.kind(), view.algorithm(), view.hash());
            let issuer = IssuerName::Id(KeyId(view.issuer()));
            let created = Some(view.created());
            let left = view.left();
            add_typed_values(output, 3, kind, algorithm, hash, &left, created, issuer)
        }
        SigView::Four(view) => {
            let (kind, algorithm, hash) = (view.kind(), view.algorithm(), view.hash());
            let issuer = issuer_named(signature);
            let created = first_created(view.hashed());
            let left = view.left();
            add_typed_values(output, 4, kind, algorithm, hash, &left, created, issuer)
        }
        SigView::Six(view) => {
            let (kind, algorithm, hash) = (view.kind(), view.algorithm(), view.hash());
            let issuer = issuer_named(signature);
            let created = first_created(view.hashed());
            let left = view.left();
            add_typed_values(output, 6, kind, algorithm, hash, &left, created, issuer)
        }
        SigView::Other(_) => add_signature(output, signature),
    }
}

/// Adds the line of a packet.
pub(crate) fn add_valued_line<W: Sink>(
    output: &mut Output<'_, W>,
    packet: Member<'_>,
) -> io::Result<()>
    requires { W.has_failed (sink_of output.old) ≡ false }
    ensures { Extends W.held W.has_failed output.old output.new result
        (valued_packet_line (member_packet packet.entry)) }
{
    let content = packet.content();
    match content {
        Content::Primary(key) => add_dated_key(output, Role::Primary, key),
        Content::Subkey(key) => add_dated_key(output, Role::Subkey, key),
        Content::Signature(signature) => add_valued_signature(output, signature),
        _ => add_content(output, content),
    }
}

/// Adds the lines of all packets that are left.
fn add_valued_listing<W: Sink>(
    output: &mut Output<'_, W>,
    mut packets: Packets<'_>,
) -> io::Result<()>
    requires { W.has_failed (sink_of output.old) ≡ false }
    ensures { Extends W.held W.has_failed output.old output.new result
        (valued_listing (packets_left packets.entry)) }
{
    'packets: while let Some(packet) = packets.next() {
        add_valued_line(output, packet)?;
    }
    Ok(())
}

/// A line for each packet, with values.
#[derive(Clone, Copy)]
pub(crate) struct ValuedListingText<'a> {
    pub(crate) packets: Packets<'a>,
}

impl Text for ValuedListingText<'_> {
    ghost octets = { λ text. valued_listing (packets_left text.packets) };

    fn add<W: Sink>(self, output: &mut Output<'_, W>) -> io::Result<()> {
        add_valued_listing(output, self.packets)
    }
}
