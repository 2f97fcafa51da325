//! Bodies of OpenPGP packets, read to the last octet: keys, user IDs, attributes and literals (RFC
//! 9580, 5.5, 5.9, 5.11, 5.12), signatures with typed subpackets (5.2), and the field reader that
//! they share (3.2).
#![tactic(auto)]

mod areas;
mod attribute;
mod cursor;
pub mod field_laws;
mod flags;
mod forms;
mod key;
pub mod key_laws;
mod key_material;
mod literal;
mod material_places;
mod other_signature;
mod other_view;
mod parsed;
mod sig_view;
mod signature;
mod signature_fields;
pub mod signature_laws;
mod signature_material;
mod spans;
mod sub_fields;
mod sub_meaning;
mod sub_view;
mod subpacket;
mod subs;
mod three;
mod user_id;
mod walk;

pub use areas::{
    AreaPlaces, AreasSignature, AreasView, FourSignature, FourView, SixSignature, SixView,
};
pub use attribute::{Attribute, AttributeSub, AttributeView};
pub use cursor::{AreaLength, Cursor};
pub use flags::{Flag, features, key_flags, key_server_preferences};
pub use key::{Key, KeyView};
pub use key_material::{Material, MaterialView};
pub use literal::{Literal, LiteralView};
pub use other_signature::OtherSignature;
pub use other_view::OtherView;
pub use parsed::{Body, Octets, Parsed};
pub use sig_view::SigView;
pub use signature::Signature;
pub use signature_material::{SignatureMaterial, SignatureMaterialView};
pub use spans::{MpiSpan, Span};
pub use sub_fields::SubFields;
pub use sub_meaning::{KeyId8, SubMeaning};
pub use sub_view::SubView;
pub use subpacket::Subpacket;
pub use subs::Subs;
pub use three::{ThreePlaces, ThreeSignature, ThreeView};
pub use user_id::UserId;
pub use walk::{Walk, fault_in_area};
