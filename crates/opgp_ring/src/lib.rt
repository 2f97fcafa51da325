//! Keyrings, their reports, and merging under one name: `opgp_keyring`, `opgp_report` and
//! `opgp_merge` have them.
#![tactic(auto)]

pub use opgp_keyring::{
    BlockOf, Certificate, Component, Components, Composed, Composer, Content, DetachedGathering,
    DetachedPackets, DetachedSignatures, Hangs, Head, Keyring, Lead, Member, Members, Packets,
    Ready, Signatures, SignedGathering, SignedLiteral, body_fault, check_bodies, check_bodies_by,
    compose, compose_signed, compose_signed_by, end_fits, flatten, join, laws, normalise, nth,
    packet_fault, view_fault,
};
pub use opgp_merge::{laws as merge_laws, merge};
pub use opgp_report::{
    Finding, Job, LeftOctets, Place, Report, Row, Verdict, Verifier, check, laws as report_laws,
};
