//! One length header (RFC 9580, 4.2).

ghost use Rattle.std.specs.Prelude.{◌≡◌, ◌≤◌, ◌++◌, None, false, length, IsSome, MatchOption};
ghost use Rattle.std.specs.Prelude.{IfSome, OnOk, OnErr};
ghost use Rattle.opgp_octets.specs.Limits.{body_limit, pieces_limit};
ghost use Rattle.opgp_frame.specs.Length.{LengthFits, LengthBegins, length_octets, length_amount};
ghost use Rattle.opgp_frame.specs.Length.{length_at, is_partial};
ghost use Rattle.opgp_frame.specs.PacketFault.{length_fault, header_fault};
ghost use Rattle.opgp_frame.specs.Spelling.{octets_of_header};

use crate::header::is_data_kind;
use crate::spelling::HeaderOctets;
use opgp_octets::{Limits, PacketLen, Reason, read_len, u16_at, u32_at};

/// A length and the form that it is written in.
#[derive(Clone, Copy)]
pub(crate) enum Length {
    /// One octet, in the legacy format.
    OldOne(u8),
    /// Two octets, in the legacy format.
    OldTwo(u16),
    /// Four octets, in the legacy format.
    OldFour(u32),
    /// In the current format.
    New(PacketLen),
}

impl Length {
    /// How many octets of the body it announces.
    #[inline(always)]
    pub(crate) fn amount(self) -> u64
        requires { LengthFits self }
        ensures value { result ≡ length_amount self }
        ensures small { result ≤ 4294967295 }
    {
        match self {
            Length::OldOne(n) | Length::New(PacketLen::One(n)) => u64::from(n),
            Length::OldTwo(n) | Length::New(PacketLen::Two(n)) => u64::from(n),
            Length::OldFour(n) | Length::New(PacketLen::Five(n)) => u64::from(n),
            Length::New(PacketLen::Partial(power)) => 1 << power,
        }
    }

    /// Whether a piece follows, and another length header after it.
    pub(crate) fn is_partial(self) -> bool
        ensures { result ≡ is_partial self }
    {
        matches!(self, Length::New(PacketLen::Partial(_)))
    }

    /// The exponent of the piece that follows, if it is a partial length.
    pub(crate) fn exponent(self) -> Option<u8>
        ensures { MatchOption result (is_partial self ≡ false)
            (λ k. self ≡ Length.New (PacketLen.Partial k)) }
    {
        match self {
            Length::New(PacketLen::Partial(power)) => Some(power),
            _ => None,
        }
    }

    /// Its octets, 1 to 5.
    pub(crate) fn octets(self) -> HeaderOctets
        requires { LengthFits self }
        ensures value { octets_of_header result ≡ length_octets self }
        ensures count { result.count ≡ length (length_octets self) }
        ensures small { result.count ≤ 5 }
    {
        match self {
            Length::OldOne(n) | Length::New(PacketLen::One(n)) => HeaderOctets::new(
                [n, 0, 0, 0, 0],
                1,
            ),
            Length::OldTwo(n) => {
                let [a, b] = n.to_be_bytes();
                HeaderOctets::new([a, b, 0, 0, 0], 2)
            }
            Length::OldFour(n) => {
                let [a, b, c, d] = n.to_be_bytes();
                HeaderOctets::new([a, b, c, d, 0], 4)
            }
            Length::New(PacketLen::Two(n)) => {
                let high = ((n - 192) / 256 + 192) as u8;
                let low = ((n - 192) % 256) as u8;
                HeaderOctets::new([high, low, 0, 0, 0], 2)
            }
            Length::New(PacketLen::Five(n)) => {
                let [a, b, c, d] = n.to_be_bytes();
                HeaderOctets::new([255, a, b, c, d], 5)
            }
            Length::New(PacketLen::Partial(power)) => HeaderOctets::new(
                [224 + power, 0, 0, 0, 0],
                1,
            ),
        }
    }
}

#[tactic(auto, unfolding(crate::specs::Length::length_at))]
#[inline(always)]
fn length_of(header: u8, o: &[u8]) -> Option<(Length, usize)>
    ensures { result ≡ length_at header o.now }
{
    if header >= 192 {
        let (len, count) = read_len(o)?;
        return Some((Length::New(len), count));
    }
    match header % 4 {
        0 => match o {
            [] => None,
            [n, ..] => Some((Length::OldOne(*n), 1)),
        },
        1 => {
            let (n, _) = u16_at(o)?;
            Some((Length::OldTwo(n), 2))
        }
        2 => {
            let (n, _) = u32_at(o)?;
            Some((Length::OldFour(n), 4))
        }
        _ => None,
    }
}

/// The length header that begins the octets, in a packet with this first octet, and how many octets
/// it takes; None if some of its octets are missing.
#[inline(always)]
pub(crate) fn read_length(header: u8, o: &[u8]) -> Option<(Length, usize)>
    ensures found { IfSome result (λ x. LengthBegins header o.now x.0 x.1) }
    ensures exact { result ≡ length_at header o.now }
    ensures enough { 5 ≤ length o.now → header_fault header ≡ None → IsSome result }
{
    length_of(header, o)
}

/// Why the length may not follow `before` partial ones, whose pieces have `sum` octets together, in
/// a packet of this type.
pub(crate) fn length_fault(
    limits: Limits,
    kind: u8,
    before: u64,
    sum: u64,
    length: Length,
) -> Option<Reason>
    requires fits { LengthFits length }
    requires within { sum ≤ body_limit limits }
    ensures { result ≡ length_fault limits kind before sum length }
{
    let amount = length.amount();
    if length.is_partial() {
        if !is_data_kind(kind) {
            return Some(Reason::PartialKind);
        }
        if before == 0 && amount < 512 {
            return Some(Reason::FirstPartial);
        }
        if before >= limits.pieces() {
            return Some(Reason::TooManyPieces);
        }
    }
    if sum + amount > limits.body() {
        Some(Reason::BodyTooLong)
    } else {
        None
    }
}
