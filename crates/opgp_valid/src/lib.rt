//! Which keys of a certificate may be believed, by what its own signatures say at a time, and by
//! the verdicts that a verifier gave on them.
#![tactic(auto)]

mod asking;
mod believing;
mod cause;
mod certified;
mod context;
mod current;
mod doubt;
mod facts;
mod gathering;
mod group;
mod judgement;
mod judging;
mod key_causes;
mod known_keys;
pub mod laws;
mod listing;
mod moment;
mod naming;
mod policy;
mod reached;
mod revocation;
mod revoking;
mod saying;
mod speaking;
mod state;
mod statement;
mod states;
mod steps;
mod strength;
pub mod subpackets;
mod uses;
mod walk;
mod why;

pub use believing::{Belief, Flaw, believe, believe_at};
pub use cause::{Cause, Spot, cause_of};
pub use certified::Certified;
pub use doubt::{Doubt, Lack};
pub use facts::{Facts, Key};
pub use judgement::{Judgement, KeyPlace, judge, verdicts_behind};
pub use judging::standing;
pub use key_causes::part_causes;
pub use known_keys::{Known, KnownKeys};
pub use listing::{Revoked, list_revocations};
pub use policy::Policy;
pub use revocation::revocation_at;
pub use state::{IdentityState, KeyState, identity_state, key_state};
pub use statement::{Author, Life, Statement};
pub use states::{PartState, part_states};
pub use strength::{is_strong, least_digest};
pub use uses::Uses;
pub use why::Why;
