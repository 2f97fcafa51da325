//! The names of the reasons why a key, or a signature over a document, isn't believed.

ghost use Rattle.std.specs.Prelude.{◌≡◌, ◌≤◌, ⊤, MatchOption, None, Some, length};
ghost use Rattle.opgp_handles.specs.Whys.{unbelieved_name};

use opgp_valid::{Flaw, Why};

/// The name of the reason that this number stands for, of those that `opgp_document_standing`
/// gives.
#[tactic(auto, unfolding(crate::specs::Whys::unbelieved_name))]
pub(crate) fn unbelieved_name(number: u8) -> Option<&'static str>
    ensures value { MatchOption result (unbelieved_name number ≡ None)
        (λ name. unbelieved_name number ≡ Some name.now) }
    ensures short { MatchOption result ⊤ (λ name. length name.now ≤ 52) }
{
    Some(match number {
        1 => Why::Future.name(),
        2 => Why::Revoked.name(),
        3 => Why::Early.name(),
        4 => Why::Unbound.name(),
        5 => Why::Expired.name(),
        6 => Why::Flags.name(),
        7 => Why::Back.name(),
        8 => Flaw::Kind.name(),
        9 => Flaw::Critical.name(),
        10 => Flaw::Weak.name(),
        11 => Flaw::Time.name(),
        12 => Flaw::Lapsed.name(),
        13 => Flaw::Issuer.name(),
        _ => return None,
    })
}
