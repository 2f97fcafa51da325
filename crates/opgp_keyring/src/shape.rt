//! How much of a signed literal has come.

ghost use Rattle.std.specs.Prelude.{◌≡◌, ◌+◌, ◌∷◌, [], ◌++◌, ◌<◌, ◌≤◌, ◌^◌, false, List, IfSome};
ghost use Rattle.std.specs.Prelude.{IfNone, replicate};
ghost use Rattle.opgp_frame.specs.Packet.{PacketValue};
ghost use Rattle.opgp_keyring.specs.Keyring.{is_filler};
ghost use Rattle.opgp_keyring.specs.Signed.{BeginsSigned, types_of};

use crate::sorted::is_filler;
use opgp_octets::PacketType;

/// How much of a signed literal has come (RFC 9580, 10.3).
#[derive(Clone, Copy)]
pub(crate) enum Shape {
    /// Before the literal: the number of one-pass signatures so far.
    Opening(u64),
    /// After the literal: the number of signatures still to come.
    Closing(u64),
}

impl Shape {
    ghost use Rattle.opgp_keyring.specs.Shape.{IsClosing, Stands, is_whole, opened};

    /// The state after one more packet of this type, or None if no signed literal begins so.
    pub(crate) fn next(self, kind: u8) -> Option<Shape>
        requires { opened self < 2 ^ 63 }
        ensures stands { IfSome result (λ s. (ps : List PacketValue) (p : PacketValue)
            → p.kind ≡ kind → Stands self ps → Stands s (ps ++ p ∷ [])) }
        ensures ends { IfNone result ((ps : List PacketValue) (p : PacketValue)
            → p.kind ≡ kind → Stands self ps → BeginsSigned (ps ++ p ∷ []) → ⊥) }
        ensures counted { IfSome result (λ s. opened s ≤ opened self + 1) }
    {
        if is_filler(kind) {
            return Some(self);
        }
        match self {
            Shape::Opening(count) => Shape::open(count, kind),
            Shape::Closing(left) => Shape::close(left, kind),
        }
    }

    /// Whether it is complete.
    pub(crate) fn is_whole(self) -> bool
        ensures { result ≡ is_whole self }
    {
        match self {
            Shape::Opening(_) => false,
            Shape::Closing(left) => left == 0,
        }
    }

    /// The next state before the literal.
    fn open(count: u64, kind: u8) -> Option<Shape>
        requires small { count < 2 ^ 63 }
        requires kind { is_filler kind ≡ false }
        ensures stands { IfSome result (λ s. (ps : List PacketValue) (p : PacketValue)
            → p.kind ≡ kind → types_of ps ≡ replicate count 4 → Stands s (ps ++ p ∷ [])) }
        ensures ends { IfNone result ((ps : List PacketValue) (p : PacketValue)
            → p.kind ≡ kind → types_of ps ≡ replicate count 4 → BeginsSigned (ps ++ p ∷ []) → ⊥) }
        ensures counted { IfSome result (λ s. opened s ≤ count + 1) }
    {
        match PacketType::from(kind) {
            PacketType::OnePassSignature => Some(Shape::Opening(count + 1)),
            PacketType::LiteralData => {
                if count > 0 {
                    Some(Shape::Closing(count))
                } else {
                    None
                }
            }
            _ => None,
        }
    }

    /// The next state after the literal.
    fn close(left: u64, kind: u8) -> Option<Shape>
        requires { is_filler kind ≡ false }
        ensures stands { IfSome result (λ s. (ps : List PacketValue) (p : PacketValue)
            → p.kind ≡ kind → IsClosing left ps → Stands s (ps ++ p ∷ [])) }
        ensures ends { IfNone result ((ps : List PacketValue) (p : PacketValue)
            → p.kind ≡ kind → IsClosing left ps → BeginsSigned (ps ++ p ∷ []) → ⊥) }
        ensures counted { IfSome result (λ s. opened s ≡ 0) }
    {
        match PacketType::from(kind) {
            PacketType::Signature => {
                if left > 0 {
                    Some(Shape::Closing(left - 1))
                } else {
                    None
                }
            }
            _ => None,
        }
    }
}
