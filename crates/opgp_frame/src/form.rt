//! The form in which a packet's header is written.

ghost use Rattle.std.specs.Prelude.{◌≡◌, ◌<◌, ◌≤◌, ℕ, All, IfOk, length, true};
ghost use Rattle.std.specs.Option.{SomeIff};
ghost use Rattle.opgp_frame.specs.Form.{HasPieces, FormSpells, form_takes, last_length};
ghost use Rattle.opgp_frame.specs.Form.{exponents_of, header_octet, current_length};
ghost use Rattle.opgp_frame.specs.Length.{LengthFits, length_octets};
ghost use Rattle.opgp_frame.specs.Reframed.{IsCurrent, shortest_form};

use crate::header::is_data_kind;
use crate::length::Length;
use crate::pieces::{LastForm, Pieces, left_behind};
use opgp_octets::{OutOfMemory, PacketLen, shortest};
use std::alloc::Global;

/// The format of a packet's header and the form of its length (RFC 9580, 4.2).
#[derive(Drop)]
pub enum Form {
    /// The legacy format with a length of one octet.
    OldOne,
    /// The legacy format with a length of two octets.
    OldTwo,
    /// The legacy format with a length of four octets.
    OldFour,
    /// The current format with a length of one octet, up to 191.
    NewOne,
    /// The current format with a length of two octets, 192 to 8383.
    NewTwo,
    /// The current format with a length of five octets.
    NewFive,
    /// The current format with partial lengths.
    Partial(Pieces),
}

impl Form {
    /// The form of the current format, not partial, that encodes a body of `n` octets in the fewest
    /// octets (RFC 9580, 4.2.1).
    ///
    /// Allocates nothing.
    pub fn shortest(n: u32) -> Form
        ensures current { IsCurrent result }
        ensures takes { (kind : ℕ) → form_takes result kind ≡ true }
        ensures spells { FormSpells result n }
        ensures least { (other : Form) → IsCurrent other → FormSpells other n
            → length (length_octets (last_length result n))
            ≤ length (length_octets (last_length other n)) }
        ensures exact { result ≡ shortest_form n }
    {
        match shortest(n) {
            PacketLen::One(_) => Form::NewOne,
            PacketLen::Two(_) => Form::NewTwo,
            PacketLen::Five(_) => Form::NewFive,
            PacketLen::Partial(_) => unreachable!(),
        }
    }

    /// A copy of this form.
    ///
    /// Fails only when out of memory.
    pub fn copy(&self, alloc: Global) -> Result<Form, OutOfMemory>
        ensures { IfOk result (λ f. f ≡ self.now) }
    {
        match self {
            Form::OldOne => Ok(Form::OldOne),
            Form::OldTwo => Ok(Form::OldTwo),
            Form::OldFour => Ok(Form::OldFour),
            Form::NewOne => Ok(Form::NewOne),
            Form::NewTwo => Ok(Form::NewTwo),
            Form::NewFive => Ok(Form::NewFive),
            Form::Partial(pieces) => {
                let pieces = pieces.copy(alloc)?;
                Ok(Form::Partial(pieces))
            }
        }
    }

    /// Whether a packet of this type, if it is read at all, may have this form.
    pub(crate) fn takes(&self, kind: u8) -> bool
        ensures { result ≡ form_takes self.now kind }
    {
        match self {
            Form::OldOne | Form::OldTwo | Form::OldFour => kind < 16,
            Form::NewOne | Form::NewTwo | Form::NewFive => true,
            Form::Partial(_) => is_data_kind(kind),
        }
    }

    /// The exponents of the pieces under partial lengths.
    pub(crate) fn exponents(&self) -> &[u8]
        ensures value { result.now ≡ exponents_of self.now }
        ensures each { All (λ k. k ≤ 30) result.now }
        ensures pieces { HasPieces self.now }
    {
        match self {
            Form::Partial(pieces) => pieces.exponents(),
            _ => &[],
        }
    }

    /// The last length of a body of `n` octets, or None if the form can't encode it.
    pub(crate) fn last_length(&self, n: u64) -> Option<Length>
        ensures { SomeIff result (FormSpells self.now n) (last_length self.now n) }
    {
        if n > 4_294_967_295 {
            return None;
        }
        let left = left_behind(self.exponents(), n)?;
        match self {
            Form::OldOne if left < 256 => Some(Length::OldOne(left as u8)),
            Form::OldTwo if left < 65_536 => Some(Length::OldTwo(left as u16)),
            Form::OldFour => Some(Length::OldFour(left as u32)),
            Form::NewOne => current(LastForm::One, left),
            Form::NewTwo => current(LastForm::Two, left),
            Form::NewFive => current(LastForm::Five, left),
            Form::Partial(pieces) => current(pieces.last(), left),
            Form::OldOne | Form::OldTwo => None,
        }
    }

    /// The octet that begins a packet of this type.
    pub(crate) fn header_octet(&self, kind: u8) -> u8
        requires read { kind < 64 }
        requires takes { form_takes self.now kind ≡ true }
        ensures { result ≡ header_octet self.now kind }
    {
        match self {
            Form::OldOne => 128 + 4 * kind,
            Form::OldTwo => 129 + 4 * kind,
            Form::OldFour => 130 + 4 * kind,
            Form::NewOne | Form::NewTwo | Form::NewFive | Form::Partial(_) => 192 + kind,
        }
    }
}

/// The length `n` in this form of the current format, or None if the form can't encode it.
fn current(form: LastForm, n: u64) -> Option<Length>
    ensures { SomeIff result (LengthFits (current_length form n)) (current_length form n) }
{
    match form {
        LastForm::One if n < 192 => Some(Length::New(PacketLen::One(n as u8))),
        LastForm::Two if 192 <= n && n < 8384 => Some(Length::New(PacketLen::Two(n as u16))),
        LastForm::Five if n <= 4_294_967_295 => Some(Length::New(PacketLen::Five(n as u32))),
        _ => None,
    }
}
