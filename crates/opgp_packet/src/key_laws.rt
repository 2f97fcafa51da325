//! What is written of a value is read again as that value.

ghost use Rattle.std.specs.Prelude.{◌≡◌, Ok};
ghost use Rattle.opgp_packet.specs.FieldReading.{body_at};
ghost use Rattle.opgp_packet.specs.Parsed.{body_octets, body_fields};
ghost use Rattle.opgp_packet.specs.UserId.{user_id_octets};
ghost use Rattle.opgp_packet.specs.UserIdBody.{user_id, user_id_fields};
ghost use Rattle.opgp_packet.specs.declared.user_id.UserId.{UserId};

use crate::parsed::{Body, Octets, Parsed};

/// The body that is written of a value is read again as that value.
pub fn written<B: Octets, F: Body>(_body: &Parsed<B, F>)
    ensures { body_at F.grammar (body_octets _body.now) ≡ Ok (body_fields _body.now) }
{}

/// The body that is written of a user ID is read again as that user ID.
pub fn written_user_id()
    ensures { (u : UserId)
        → body_at user_id (user_id_octets u) ≡ Ok (user_id_fields (user_id_octets u)) }
{}
