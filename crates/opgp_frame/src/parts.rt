//! A packet from its parts as they were read.

ghost use Rattle.std.specs.Prelude.{◌≡◌, ◌<◌, ◌≤◌, ℕ, List, false, length, IfSome};
ghost use Rattle.std.specs.Option.{IsSomeAnd};
ghost use Rattle.opgp_octets.specs.declared.limits.Limits.{Limits};
ghost use Rattle.opgp_frame.specs.Form.{exponents_of};
ghost use Rattle.opgp_frame.specs.FormOf.{form_with};
ghost use Rattle.opgp_frame.specs.Length.{is_partial};
ghost use Rattle.opgp_frame.specs.PiecesValue.{ArePieces};
ghost use Rattle.opgp_frame.specs.Unfinished.{IsInPiece, IsWhole};

use crate::form::Form;
use crate::header::kind_in;
use crate::length::Length;
use crate::packet::{Packet, Placed};
use crate::pieces::{LastForm, Pieces};
use opgp_octets::PacketLen;

/// The packet with this first octet, these pieces, this last length and this body, in its place.
#[inline(always)]
pub(crate) fn placed(
    header: u8,
    exponents: Vec<u8>,
    last: Length,
    body: Vec<u8>,
    block: u64,
    pos: u64,
) -> Option<Placed>
    ensures kept { IfSome result (λ p. (length p.packet.body ≡ length body.items)
        × (length (exponents_of p.packet.form) ≤ length exponents.items)) }
    ensures whole { (limits : Limits) (from until : ℕ) (rest : List ℕ)
        → IsInPiece limits header last from until exponents.items body.items rest
        → length body.items ≡ until → is_partial last ≡ false
        → IsSomeAnd result
        (λ p. (p.block ≡ block) × (p.pos ≡ pos) × IsWhole limits rest p.packet) }
{
    let form = form_of(exponents, last)?;
    let packet = Packet::new(form, kind_in(header), body)?;
    Some(Placed { packet, block, pos })
}

/// The form of a packet with these pieces and this last length.
#[inline(always)]
pub(crate) fn form_of(exponents: Vec<u8>, last: Length) -> Option<Form>
    ensures kept { IfSome result (λ f. length (exponents_of f) ≤ length exponents.items) }
    ensures exact { (0 < length exponents.items → ArePieces exponents.items)
        → result ≡ form_with exponents.items last }
{
    let (last, plain) = match last {
        Length::OldOne(_) => return Some(Form::OldOne),
        Length::OldTwo(_) => return Some(Form::OldTwo),
        Length::OldFour(_) => return Some(Form::OldFour),
        Length::New(PacketLen::One(_)) => (LastForm::One, Form::NewOne),
        Length::New(PacketLen::Two(_)) => (LastForm::Two, Form::NewTwo),
        Length::New(PacketLen::Five(_)) => (LastForm::Five, Form::NewFive),
        Length::New(PacketLen::Partial(_)) => return None,
    };
    if exponents.is_empty() {
        return Some(plain);
    }
    let pieces = Pieces::new(exponents, last)?;
    Some(Form::Partial(pieces))
}
