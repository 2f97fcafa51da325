//! User IDs.

ghost use Rattle.std.specs.Prelude.{◌≡◌, ◌++◌, ◌+◌, ◌≤◌, List, length, Ok};
ghost use Rattle.std.specs.Prelude.{OnOk, OnErr, IfOk, IfErr, IsOk, vec_len, vec_capacity};
ghost use Rattle.opgp_octets.specs.Octets.{IsOctets, IsBodySized};
ghost use Rattle.opgp_octets.specs.ParseFault.{Parses};
ghost use Rattle.opgp_packet.specs.FieldReading.{body_at};
ghost use Rattle.opgp_packet.specs.Fields.{Field, Body};
ghost use Rattle.opgp_packet.specs.UserIdBody.{user_id, user_id_fields, SpellsUserId};

use opgp_octets::{OutOfMemory, ParseFault};
use std::alloc::Global;

/// A user ID: any octets, usually a name and a mail address in UTF-8 (RFC 9580, 5.11).
#[derive(Drop)]
pub struct UserId {
    body: Vec<u8>,
    ghost octets: { IsOctets body.items },
    ghost small: { IsBodySized body.items },
}

impl UserId {
    ghost use Rattle.opgp_packet.specs.UserId.{user_id_octets};

    /// The user ID of these octets, which it copies.
    ///
    /// Fails only when out of memory.
    pub fn parse_body(alloc: Global, o: &[u8]) -> Result<UserId, ParseFault>
        requires { IsBodySized o.now }
        ensures found { IfOk result (λ u. SpellsUserId (user_id_octets u) o.now) }
        ensures only { (fields : List Field) → Body user_id fields o.now
            → Parses (λ u. user_id_fields (user_id_octets u)) result (Ok fields) }
        ensures fault { IfErr result (λ e. e ≡ ParseFault.Memory) }
        ensures exact { Parses (λ u. user_id_fields (user_id_octets u)) result
            (body_at user_id o.now) }
        ensures body { IfOk result (λ u. user_id_octets u ≡ o.now) }
    {
        UserId::read(alloc, o)
    }

    #[tactic(auto, unfolding(crate::specs::FieldReading::body_at, crate::specs::FieldReading::step_at, crate::specs::FieldReading::kind_at))]
    fn read(alloc: Global, o: &[u8]) -> Result<UserId, ParseFault>
        requires { IsBodySized o.now }
        ensures exact { Parses (λ u. user_id_fields (user_id_octets u)) result
            (body_at user_id o.now) }
        ensures body { IfOk result (λ u. user_id_octets u ≡ o.now) }
        ensures fault { IfErr result (λ e. e ≡ ParseFault.Memory) }
    {
        Ok(UserId {
            body: Vec::from_slice(alloc, o)?,
        })
    }

    /// The user ID of these octets, which it keeps. Allocates nothing.
    pub fn from_body(body: Vec<u8>) -> UserId
        requires { IsBodySized body.items }
        ensures { user_id_octets result ≡ body.items }
    {
        UserId { body }
    }

    /// Its body, as a vector. Allocates nothing.
    pub fn into_body(self) -> Vec<u8>
        ensures value { result.items ≡ user_id_octets self }
        ensures small { IsBodySized result.items }
    {
        let UserId { body } = self;
        body
    }

    /// Its octets, which are its whole body.
    pub fn octets(&self) -> &[u8]
        ensures value { result.now ≡ user_id_octets self.now }
        ensures small { IsBodySized result.now }
    {
        &self.body
    }

    /// The octets of its body.
    pub fn body(&self) -> &[u8]
        ensures value { result.now ≡ user_id_octets self.now }
        ensures small { IsBodySized result.now }
        ensures spelled { SpellsUserId (user_id_octets self.now) result.now }
    {
        &self.body
    }

    /// How many octets its body has.
    pub fn body_len(&self) -> u64
        ensures { result ≡ length (user_id_octets self.now) }
    {
        self.body.len() as u64
    }

    /// Writes its body at the end of `out`.
    ///
    /// Fails only when out of memory; `out` is then unchanged.
    pub fn write_body(&self, out: &mut Vec<u8>) -> Result<(), OutOfMemory>
        ensures ok { OnOk result (out.new.items ≡ out.old.items ++ user_id_octets self.now) }
        ensures err { OnErr result (out.new.items ≡ out.old.items) }
        // It can't fail if the vector has the room.
        ensures succeeds { vec_len out.old + length (user_id_octets self.now) ≤ vec_capacity out.old
            → IsOk result }
    {
        out.extend_from_slice(&self.body)
    }

    /// A copy of this user ID.
    ///
    /// Fails only when out of memory.
    pub fn copy(&self, alloc: Global) -> Result<UserId, OutOfMemory>
        ensures { IfOk result (λ u. user_id_octets u ≡ user_id_octets self.now) }
    {
        Ok(UserId {
            body: Vec::from_slice(alloc, &self.body)?,
        })
    }
}
