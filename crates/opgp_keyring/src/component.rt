//! The components of a certificate.

ghost use Rattle.std.specs.Prelude.{◌≡◌, ◌∷◌, [], MatchOption};
ghost use Rattle.opgp_keyring.specs.Keyring.{IsHead};
ghost use Rattle.opgp_keyring.specs.Member.{member_packet, members_left};

use crate::hangs::Hangs;
use crate::member::Member;
use crate::members::Members;

/// A user ID, an attribute or a subkey of a certificate, and the signatures and fillers on it (RFC
/// 9580, 10.1), borrowed.
#[derive(Clone, Copy)]
pub struct Component<'a> {
    head: Member<'a>,
    hangs: Hangs<'a>,
    ghost begins: { IsHead (member_packet head) },
}

impl<'a> Component<'a> {
    ghost use Rattle.opgp_keyring.specs.Grouped.{component_of, hangs_left};

    /// The user ID, attribute or subkey.
    pub fn head(self) -> Member<'a>
        ensures value { member_packet result ≡ (component_of self.entry).head }
        ensures head { IsHead (member_packet result) }
    {
        self.head
    }

    /// The signatures and fillers on it, in order.
    pub fn hangs(self) -> Hangs<'a>
        ensures { hangs_left result ≡ (component_of self.entry).hangs }
    {
        self.hangs
    }
}

/// The components of a certificate that are left to be visited, in order. Allocates nothing.
#[derive(Clone, Copy)]
pub struct Components<'a> {
    left: Members<'a>,
}

impl<'a> Components<'a> {
    ghost use Rattle.opgp_keyring.specs.Grouped.{component_of, components_behind, components_left};

    /// Those from the next user ID, attribute or subkey on.
    pub(crate) fn new(left: Members<'a>) -> Components<'a>
        ensures { components_left result ≡ components_behind (members_left left.entry) }
    {
        Components { left }
    }

    /// The next component, or None at the end.
    pub fn next(&mut self) -> Option<Component<'a>>
        ensures { MatchOption result
            ((components_left self.old ≡ []) × (components_left self.new ≡ []))
            (λ c. components_left self.old ≡ component_of c ∷ components_left self.new) }
    {
        'packets: while let Some(head) = self.left.next() {
            if head.begins_component() {
                let hangs = Hangs::new(self.left);
                return Some(Component { head, hangs });
            }
        }
        None
    }
}
