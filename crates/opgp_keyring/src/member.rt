//! A packet of a keyring.

ghost use Rattle.std.specs.Prelude.{◌≡◌, length, IfOk};
ghost use Rattle.opgp_frame.specs.Packet.{IsPacket, spelling};
ghost use Rattle.opgp_frame.specs.View.{viewed_packet};
ghost use Rattle.opgp_keyring.specs.Content.{content_kind, content_octets, IsKept};
ghost use Rattle.opgp_keyring.specs.Keyring.{IsHead, is_head};
ghost use Rattle.opgp_keyring.specs.Lent.{head_kind, head_octets};
ghost use Rattle.opgp_keyring.specs.Packed.{MayStand};
ghost use Rattle.opgp_keyring.specs.Header.{packet_with};

use crate::content::Content;
use crate::header::{Header, Plain};
use crate::lent::Head;
use opgp_frame::{Form, Packet, PacketView, spelled_len_of};
use opgp_octets::{OutOfMemory, PacketType};
use opgp_packet::{AttributeView, KeyView, SigView};
use std::alloc::Global;

/// A packet of a keyring, borrowed (RFC 9580, 10.1).
#[derive(Clone, Copy)]
pub struct Member<'a> {
    header: Header,
    body: &'a [u8],
    ghost whole: { header.len ≡ length body.now },
    ghost part: { MayStand (packet_with header body.now) },
}

impl<'a> Member<'a> {
    ghost use Rattle.opgp_keyring.specs.Member.{member_packet};

    /// The packet with this header and body.
    pub(crate) fn new(header: Header, body: &'a [u8]) -> Member<'a>
        requires whole { header.len ≡ length body.now }
        requires part { MayStand (packet_with header body.now) }
        ensures { member_packet result ≡ packet_with header body.now }
    {
        Member { header, body }
    }

    /// A packet that may stand in a keyring.
    #[inline(always)]
    pub(crate) fn of(packet: PacketView<'a>) -> Member<'a>
        requires { MayStand (viewed_packet packet) }
        ensures { member_packet result ≡ viewed_packet packet.entry }
    {
        let body = packet.body();
        let header = Header {
            len: body.len() as u32,
            kind: packet.kind(),
            plain: Plain::of(packet.form()),
        };
        Member::new(header, body)
    }

    /// Its header.
    #[inline(always)]
    pub(crate) fn header(self) -> Header
        ensures { result ≡ self.entry.header }
    {
        self.header
    }

    /// The form of the packet's header (RFC 9580, 4.2). Allocates nothing.
    pub fn form(self) -> Form
        ensures value { result ≡ (member_packet self.entry).form }
        ensures packet { IsPacket (member_packet self.entry) }
    {
        self.header.plain.form()
    }

    /// The packet's type (RFC 9580, 5).
    pub fn kind(self) -> u8
        ensures { result ≡ (member_packet self.entry).kind }
    {
        self.header.kind
    }

    /// The packet's body.
    pub fn body(self) -> &'a [u8]
        ensures { result.now ≡ (member_packet self.entry).body }
    {
        self.body
    }

    /// What its body contains. Reads the body; allocates nothing.
    pub fn content(self) -> Content<'a>
        ensures kind { content_kind result ≡ (member_packet self.entry).kind }
        ensures octets { content_octets result ≡ (member_packet self.entry).body }
        ensures kept { IsKept result }
    {
        let body = self.body;
        match PacketType::from(self.header.kind) {
            PacketType::PublicKey => match KeyView::parse_body(body) {
                Ok(key) => Content::Primary(key),
                Err(_) => unreachable!(),
            },
            PacketType::PublicSubkey => match KeyView::parse_body(body) {
                Ok(key) => Content::Subkey(key),
                Err(_) => unreachable!(),
            },
            PacketType::UserId => Content::UserId(body),
            PacketType::UserAttribute => match AttributeView::parse_body(body) {
                Ok(attribute) => Content::Attribute(attribute),
                Err(_) => unreachable!(),
            },
            PacketType::Signature => match SigView::parse_body(body) {
                Ok(signature) => Content::Signature(signature),
                Err(_) => Content::Malformed(body),
            },
            _ => Content::Filler(self.header.kind, body),
        }
    }

    /// Whether it is a user ID, an attribute or a subkey.
    pub(crate) fn begins_component(self) -> bool
        ensures { result ≡ is_head (member_packet self.entry).kind }
    {
        let kind = self.header.kind;
        kind == PacketType::UserId.number()
            || kind == PacketType::UserAttribute.number()
            || kind == PacketType::PublicSubkey.number()
    }

    /// How many octets the packet takes, header included (RFC 9580, 4.2). Allocates nothing.
    pub fn spelled_len(self) -> u64
        ensures { result ≡ length (spelling (member_packet self.entry)) }
    {
        spelled_len_of(&self.form(), self.body.len() as u64)
    }

    /// The packet as the head of a component. The condition is that it is a user ID, an attribute
    /// or a subkey. Reads the body; allocates nothing.
    pub fn head(self) -> Head<'a>
        requires { IsHead (member_packet self) }
        ensures kind { head_kind result ≡ (member_packet self.entry).kind }
        ensures octets { head_octets result ≡ (member_packet self.entry).body }
    {
        match self.content() {
            Content::UserId(id) => Head::UserId(id),
            Content::Attribute(attribute) => Head::Attribute(attribute),
            Content::Subkey(key) => Head::Subkey(key),
            _ => unreachable!(),
        }
    }

    /// A copy of the packet as it is framed. Fails only when out of memory.
    pub fn packet(self, alloc: Global) -> Result<Packet, OutOfMemory>
        ensures { IfOk result (λ p. p ≡ member_packet self.entry) }
    {
        let body = Vec::from_slice(alloc, self.body)?;
        match Packet::new(self.form(), self.header.kind, body) {
            Some(packet) => Ok(packet),
            None => unreachable!(),
        }
    }
}
