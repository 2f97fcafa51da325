//! The signatures and fillers on a key or a component, one after the other.

ghost use Rattle.std.specs.Prelude.{◌≡◌, ◌∷◌, [], MatchOption};

use crate::member::Member;
use crate::members::Members;

/// The signatures and fillers on a primary key, or on a component, that are left to be visited, in
/// order (RFC 9580, 10.1). Allocates nothing.
#[derive(Clone, Copy)]
pub struct Hangs<'a> {
    left: Members<'a>,
}

impl<'a> Hangs<'a> {
    ghost use Rattle.opgp_keyring.specs.Grouped.{hangs_left, hung_before};
    ghost use Rattle.opgp_keyring.specs.Member.{member_packet, members_left};

    /// Those before the next user ID, attribute or subkey.
    pub(crate) fn new(left: Members<'a>) -> Hangs<'a>
        ensures { hangs_left result ≡ hung_before (members_left left.entry) }
    {
        Hangs { left }
    }

    /// The next packet, or None at the end.
    pub fn next(&mut self) -> Option<Member<'a>>
        ensures { MatchOption result ((hangs_left self.old ≡ []) × (hangs_left self.new ≡ []))
            (λ m. hangs_left self.old ≡ member_packet m ∷ hangs_left self.new) }
    {
        let mut ahead = self.left;
        match ahead.next() {
            Some(member) if !member.begins_component() => {
                self.left = ahead;
                Some(member)
            }
            _ => None,
        }
    }
}
