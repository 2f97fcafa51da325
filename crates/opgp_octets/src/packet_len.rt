//! The length of a packet's body, in the current format (RFC 9580, 4.2.1).

ghost use Rattle.std.specs.Prelude.{◌≡◌, ◌+◌, ◌++◌, ◌<◌, ◌≤◌, ◌^◌, ◌↔◌, List, ℕ, length, take};
ghost use Rattle.std.specs.Prelude.{IsTrue, IfSome, IfNone, OnOk, OnErr, IsOk, vec_len};
ghost use Rattle.std.specs.Prelude.{vec_capacity};
ghost use Rattle.opgp_octets.specs.PacketLen.{packet_len_octets, PacketLenFits, PacketLenBegins};
ghost use Rattle.opgp_octets.specs.PacketLen.{packet_len_amount, IsPartial, packet_len_at};

use crate::number::u32_at;
use crate::refusal::OutOfMemory;

/// A length and the form that it is written in.
#[derive(Clone, Copy, Debug, PartialEq, Eq)]
pub enum PacketLen {
    /// One octet: 0 to 191.
    One(u8),
    /// Two octets: 192 to 8383.
    Two(u16),
    /// The octet 255 and four more: any length.
    Five(u32),
    /// One octet: a piece of 2 to this power octets, 0 to 30, with another length after it.
    Partial(u8),
}

impl PacketLen {
    /// Whether the form can encode the length.
    pub fn fits(self) -> bool
        ensures { IsTrue result ↔ PacketLenFits self }
    {
        match self {
            PacketLen::One(n) => n <= 191,
            PacketLen::Two(n) => 192 <= n && n <= 8383,
            PacketLen::Five(_) => true,
            PacketLen::Partial(power) => power <= 30,
        }
    }
}

#[tactic(auto, unfolding(crate::specs::PacketLen::packet_len_at))]
fn len_of(o: &[u8]) -> Option<(PacketLen, usize)>
    ensures { result ≡ packet_len_at o.now }
{
    match o {
        [] => None,
        [a, ..] if *a < 192 => Some((PacketLen::One(*a), 1)),
        [a, rest @ ..] if *a < 224 => match rest {
            [] => None,
            [b, ..] => {
                let n = (u16::from(*a) - 192) * 256 + u16::from(*b) + 192;
                Some((PacketLen::Two(n), 2))
            }
        },
        [a, ..] if *a < 255 => Some((PacketLen::Partial(*a - 224), 1)),
        [_, rest @ ..] => {
            let (n, _) = u32_at(rest)?;
            Some((PacketLen::Five(n), 5))
        }
    }
}

/// The length that begins the octets, and how many octets it takes; None if some of them are
/// missing.
///
/// Allocates nothing.
pub fn read_len(o: &[u8]) -> Option<(PacketLen, usize)>
    // What is read is a length whose encoding begins the octets.
    ensures found { IfSome result (λ x. PacketLenBegins o.now x.0 x.1) }
    // Nothing is read only if no length's encoding begins the octets.
    ensures none { IfNone result
        ((len : PacketLen) (rest : List ℕ) → PacketLenFits len
        → o.now ≡ packet_len_octets len ++ rest → ⊥) }
    ensures exact { result ≡ packet_len_at o.now }
{
    len_of(o)
}

/// Writes the length at the end of `out`, in its form.
///
/// Fails only when out of memory; `out` is then unchanged.
pub fn write_len(len: &PacketLen, out: &mut Vec<u8>) -> Result<(), OutOfMemory>
    requires { PacketLenFits len.now }
    ensures ok { OnOk result (out.new.items ≡ out.old.items ++ packet_len_octets len.now) }
    ensures err { OnErr result (out.new.items ≡ out.old.items) }
    // It can't fail if the vector has the room.
    ensures succeeds { vec_len out.old + length (packet_len_octets len.now) ≤ vec_capacity out.old
        → IsOk result }
{
    match *len {
        PacketLen::One(n) => out.extend_from_slice(&[n]),
        PacketLen::Two(n) => {
            let high = ((n - 192) / 256 + 192) as u8;
            let low = ((n - 192) % 256) as u8;
            out.extend_from_slice(&[high, low])
        }
        PacketLen::Five(n) => {
            let [a, b, c, d] = n.to_be_bytes();
            out.extend_from_slice(&[255, a, b, c, d])
        }
        PacketLen::Partial(power) => out.extend_from_slice(&[224 + power]),
    }
}

/// The form that encodes the length in the fewest octets, never partial.
///
/// Allocates nothing.
pub fn shortest(n: u32) -> PacketLen
    ensures fits { PacketLenFits result }
    ensures amount { packet_len_amount result ≡ n }
    ensures whole { IsPartial result → ⊥ }
    ensures least { (len : PacketLen) → PacketLenFits len → (IsPartial len → ⊥)
        → packet_len_amount len ≡ n
        → length (packet_len_octets result) ≤ length (packet_len_octets len) }
{
    if n < 192 {
        PacketLen::One(n as u8)
    } else if n < 8384 {
        PacketLen::Two(n as u16)
    } else {
        PacketLen::Five(n)
    }
}
