//! Bodies of keys, user IDs, attributes and literals under a name of their own: `opgp_packet` has
//! them.
#![tactic(auto)]

pub use opgp_packet::{
    Attribute, AttributeSub, AttributeView, Key, KeyView, Literal, LiteralView, Material,
    MaterialView, UserId, key_laws as laws,
};
