//! The packets of a certificate, borrowed, and what each is there for.

use crate::role::Role;
use opgp_keyring::Member;
use std::marker::Model;

/// A packet on a key or a component, and what it is there for.
#[derive(Drop)]
pub(crate) struct Judged<'a> {
    pub(crate) member: Member<'a>,
    pub(crate) role: Role,
}

impl<'a> Model for Judged<'a> {
    ghost use Rattle.opgp_keyring.specs.Member.{member_packet};
    ghost use Rattle.opgp_bound.specs.Judged.{JudgedValue};

    ghost Value = { JudgedValue };

    ghost view = { λ j. record { packet = member_packet j.member; role = j.role } };
}

/// A user ID, an attribute or a subkey, whether that made a good revocation, and the packets on it.
#[derive(Drop)]
pub(crate) struct JudgedComponent<'a> {
    pub(crate) head: Member<'a>,
    pub(crate) is_issuer: bool,
    pub(crate) hangs: Vec<Judged<'a>>,
}

impl<'a> Model for JudgedComponent<'a> {
    ghost use Rattle.opgp_keyring.specs.Member.{member_packet};
    ghost use Rattle.opgp_bound.specs.Judged.{JudgedComponentValue};

    ghost Value = { JudgedComponentValue };

    ghost view = { λ c. record {
      head = member_packet c.head;
      is_issuer = c.is_issuer;
      hangs = c.hangs.items;
    } };
}
