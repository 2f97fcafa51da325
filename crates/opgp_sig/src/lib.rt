//! Bodies of signatures and their subpackets under a name of their own: `opgp_packet` has them.
#![tactic(auto)]

pub use opgp_packet::{
    AreasSignature, AreasView, FourSignature, FourView, KeyId8, OtherSignature, OtherView, SigView,
    Signature, SignatureMaterial, SignatureMaterialView, SixSignature, SixView, SubMeaning,
    SubView, Subs, ThreeSignature, ThreeView, signature_laws as laws,
};

/// A subpacket that borrows its octets (RFC 9580, 5.2.3.7).
pub type Sub<'a> = SubView<'a>;
