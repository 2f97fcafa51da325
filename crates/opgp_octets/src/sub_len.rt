//! The length of a subpacket (RFC 9580, 5.2.3.7).

ghost use Rattle.std.specs.Prelude.{◌≡◌, ◌+◌, ◌++◌, ◌<◌, ◌≤◌, ◌^◌, ◌↔◌, List, ℕ, length, take};
ghost use Rattle.std.specs.Prelude.{IsTrue, IfSome, IfNone, OnOk, OnErr, IsOk, vec_len};
ghost use Rattle.std.specs.Prelude.{vec_capacity};
ghost use Rattle.opgp_octets.specs.SubLen.{sub_len_octets, SubLenFits, SubLenBegins, sub_len_at};

use crate::number::u32_at;
use crate::refusal::OutOfMemory;

/// The length of a subpacket, its type octet included, and the form that it is written in.
#[derive(Clone, Copy, Debug, PartialEq, Eq)]
pub enum SubLen {
    /// One octet: 0 to 191.
    One(u8),
    /// Two octets: 192 to 16319.
    Two(u16),
    /// The octet 255 and four more: any length.
    Five(u32),
}

impl SubLen {
    ghost use Rattle.opgp_octets.specs.SubLen.{sub_len_amount};

    /// Whether the form can encode the length.
    pub fn fits(self) -> bool
        ensures { IsTrue result ↔ SubLenFits self }
    {
        match self {
            SubLen::One(n) => n <= 191,
            SubLen::Two(n) => 192 <= n && n <= 16319,
            SubLen::Five(_) => true,
        }
    }

    /// How many octets it announces, the type octet included.
    pub fn amount(self) -> u32
        ensures { result ≡ sub_len_amount self }
    {
        match self {
            SubLen::One(n) => u32::from(n),
            SubLen::Two(n) => u32::from(n),
            SubLen::Five(n) => n,
        }
    }
}

#[tactic(auto, unfolding(crate::specs::SubLen::sub_len_at))]
fn len_of(o: &[u8]) -> Option<(SubLen, usize)>
    ensures { result ≡ sub_len_at o.now }
{
    match o {
        [] => None,
        [a, ..] if *a < 192 => Some((SubLen::One(*a), 1)),
        [a, rest @ ..] if *a < 255 => match rest {
            [] => None,
            [b, ..] => {
                let n = (u16::from(*a) - 192) * 256 + u16::from(*b) + 192;
                Some((SubLen::Two(n), 2))
            }
        },
        [_, rest @ ..] => {
            let (n, _) = u32_at(rest)?;
            Some((SubLen::Five(n), 5))
        }
    }
}

/// The length that begins the octets, and how many octets it takes; None if some of them are
/// missing.
///
/// Allocates nothing.
pub fn read_sub_len(o: &[u8]) -> Option<(SubLen, usize)>
    // What is read is a length whose encoding begins the octets.
    ensures found { IfSome result (λ x. SubLenBegins o.now x.0 x.1) }
    // Nothing is read only if no length's encoding begins the octets.
    ensures none { IfNone result
        ((len : SubLen) (rest : List ℕ) → SubLenFits len → o.now ≡ sub_len_octets len ++ rest → ⊥) }
    ensures exact { result ≡ sub_len_at o.now }
{
    len_of(o)
}

/// Writes the length at the end of `out`, in its form.
///
/// Fails only when out of memory; `out` is then unchanged.
pub fn write_sub_len(len: &SubLen, out: &mut Vec<u8>) -> Result<(), OutOfMemory>
    requires { SubLenFits len.now }
    ensures ok { OnOk result (out.new.items ≡ out.old.items ++ sub_len_octets len.now) }
    ensures err { OnErr result (out.new.items ≡ out.old.items) }
    // It can't fail if the vector has the room.
    ensures succeeds { vec_len out.old + length (sub_len_octets len.now) ≤ vec_capacity out.old
        → IsOk result }
{
    match *len {
        SubLen::One(n) => out.extend_from_slice(&[n]),
        SubLen::Two(n) => {
            let high = ((n - 192) / 256 + 192) as u8;
            let low = ((n - 192) % 256) as u8;
            out.extend_from_slice(&[high, low])
        }
        SubLen::Five(n) => {
            let [a, b, c, d] = n.to_be_bytes();
            out.extend_from_slice(&[255, a, b, c, d])
        }
    }
}
