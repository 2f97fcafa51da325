//! Packets of a keyring, one after the other.

ghost use Rattle.std.specs.Prelude.{◌≡◌, ◌↔◌, ◌∷◌, [], All, length, IsTrue, MatchOption};
ghost use Rattle.opgp_keyring.specs.Packed.{ArePacked, MayStand};
ghost use Rattle.opgp_keyring.specs.Header.{packets_with, sizes};

use crate::header::Header;
use crate::member::Member;

/// Packets that are left to be visited, in order. Allocates nothing.
#[derive(Clone, Copy)]
pub struct Members<'a> {
    bodies: &'a [u8],
    headers: &'a [Header],
    ghost whole: { length bodies.now ≡ sizes headers.now },
    ghost parts: { All MayStand (packets_with bodies.now headers.now) },
}

impl<'a> Members<'a> {
    ghost use Rattle.opgp_keyring.specs.Member.{member_packet, members_left};

    /// The packets of these headers.
    pub(crate) fn new(bodies: &'a [u8], headers: &'a [Header]) -> Members<'a>
        requires { ArePacked bodies.now headers.now }
        ensures { members_left result ≡ packets_with bodies.now headers.now }
    {
        Members { bodies, headers }
    }

    /// The next packet, or None at the end.
    pub fn next(&mut self) -> Option<Member<'a>>
        ensures { MatchOption result ((members_left self.old ≡ []) × (members_left self.new ≡ []))
            (λ m. members_left self.old ≡ member_packet m ∷ members_left self.new) }
    {
        let [header, rest @ ..] = self.headers else {
            return None;
        };
        let (body, bodies) = self.bodies.split_at(header.len as usize);
        *self = Members {
            bodies,
            headers: rest,
        };
        Some(Member::new(*header, body))
    }

    /// How many there are.
    pub fn len(&self) -> usize
        ensures { result ≡ length (members_left self.now) }
    {
        self.headers.len()
    }

    /// Whether there are none.
    pub fn is_empty(&self) -> bool
        ensures { IsTrue result ↔ (members_left self.now ≡ []) }
    {
        self.len() == 0
    }
}
