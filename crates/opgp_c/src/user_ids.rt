//! The call for what the octets of a user ID say.

ghost use Rattle.std.specs.Prelude.{◌≡◌};
ghost use Rattle.opgp_handles.specs.UserIds.{facts_of};

use opgp_handles::{UserIdFacts, user_id};

/// Says of the octets of a user ID whether they are UTF-8 (RFC 9580, 5.11), and where its mail
/// address is, if it has one. Allocates nothing.
#[unsafe(no_mangle)]
pub extern "C" fn opgp_user_id(octets: &[u8], facts: &mut UserIdFacts)
    ensures { facts.new ≡ facts_of octets.now }
{
    user_id(octets, facts);
}
