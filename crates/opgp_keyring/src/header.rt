//! What is kept of a packet's header.

ghost use Rattle.std.specs.Prelude.{◌≡◌, ◌≤◌};
ghost use Rattle.opgp_keyring.specs.Header.{least_len, most_len, normal_header};
ghost use Rattle.opgp_keyring.specs.Header.{plain_form, plain_of};

use crate::reframing::Reframe;
use opgp_frame::Form;

/// The form of a header without partial lengths (RFC 9580, 4.2): no type that stands in a keyring
/// may have any.
#[derive(Clone, Copy)]
pub(crate) enum Plain {
    OldOne,
    OldTwo,
    OldFour,
    NewOne,
    NewTwo,
    NewFive,
}

impl Plain {
    /// The form, which isn't one of pieces: it encodes bodies of some length without any.
    #[inline(always)]
    pub(crate) fn of(form: &Form) -> Plain
        requires { least_len form.now ≤ most_len form.now }
        ensures value { result ≡ plain_of form.now }
        ensures form { plain_form result ≡ form.now }
    {
        match form {
            Form::OldOne => Plain::OldOne,
            Form::OldTwo => Plain::OldTwo,
            Form::OldFour => Plain::OldFour,
            Form::NewOne => Plain::NewOne,
            Form::NewTwo => Plain::NewTwo,
            Form::NewFive => Plain::NewFive,
            Form::Partial(_) => unreachable!(),
        }
    }

    /// The form as a packet has it. Allocates nothing.
    #[inline(always)]
    pub(crate) fn form(self) -> Form
        ensures { result ≡ plain_form self }
    {
        match self {
            Plain::OldOne => Form::OldOne,
            Plain::OldTwo => Form::OldTwo,
            Plain::OldFour => Form::OldFour,
            Plain::NewOne => Form::NewOne,
            Plain::NewTwo => Form::NewTwo,
            Plain::NewFive => Form::NewFive,
        }
    }
}

/// How long a packet's body is, its type, and the form of its header: 8 octets, whatever the body.
#[derive(Clone, Copy)]
pub(crate) struct Header {
    pub(crate) len: u32,
    pub(crate) kind: u8,
    pub(crate) plain: Plain,
}

impl Reframe for Header {
    ghost normal = { normal_header };

    fn reframe(&mut self) {
        self.plain = Plain::of(&Form::shortest(self.len));
    }
}
