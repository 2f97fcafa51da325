//! OpenPGP certificates and keyrings (RFC 9580), read, shown, checked and rewritten: all crates
//! under one name.
//!
//! [`codec::read_keyring`] reads a keyring, [`ring`] has its certificates and their parts,
//! [`report::check`] what can be said of each signature, and [`codec::write_keyring`] writes it.
//! Each `laws` has facts about the definitions, for proofs.
#![tactic(auto)]

/// ASCII armor (RFC 9580, 6).
pub mod armor {
    pub use opgp_armor::{ArmorEvent, Block, Dearmor, Label, armor, dearmor, encode_row, laws};
}

/// Armored blocks in texts as mail programs meet them.
pub mod blocks {
    pub use opgp_blocks::{Blocks, FoundBlock, laws};
}

/// Certificates of which only bound components stay, by a verifier's verdicts.
pub mod bound {
    pub use opgp_bound::{keep_bound, keep_newest, laws, newest_laws};
}

/// Messages in the cleartext signature framework (RFC 9580, 7): documents with their signatures.
pub mod cleartext {
    pub use opgp_cleartext::{Cleartext, laws};
}

/// Keyrings read from a reader and written to a writer.
pub mod codec {
    pub use opgp_codec::{
        Answer, Draft, DraftError, EngineError, IncomingOctets, IncomingPackets, IncomingParts,
        Mode, NoSpool, Out, PacketReader, PacketsAnswer, PacketsText, PartReader, Parts, ReadError,
        SignedAnswer, Sink, Source, Spool, Text, Waiting, WaitingPackets, Watched, cleartext_laws,
        laws, read_cleartext, read_keyring, read_packets, read_signatures, read_signed, write,
        write_certificate, write_certificates, write_keyring,
    };
}

/// What changed between two keyrings, packet by packet.
pub mod difference {
    pub use opgp_difference::{Difference, PacketPlace, PlacedPacket, compare, laws};
}

/// Documents that signatures are made over, hashed in pieces (RFC 9580, 5.2.1, 5.2.4).
pub mod document {
    pub use opgp_document::{
        CanonicalText, DocumentAnswers, DocumentHasher, DocumentWhy, MOST_SIGNATURES, OpenFault,
        OwnOctets, ShortTable, SignatureHasher, SignedDocument, StrayReturn, laws,
    };
}

/// What each octet means that a signature hashes (RFC 9580, 5.2.4).
pub mod explain {
    pub use opgp_explain::{
        BodyPart, Field, KeyPart, Meaning, Role, SignaturePart, SubpacketPart, TrailerPart,
        add_fields, fields_of, laws,
    };
}

/// Packets and their framing (RFC 9580, 4).
pub mod frame {
    pub use opgp_frame::{
        Deframe, Form, HeaderOctets, LastForm, Packet, PacketView, Pieces, Placed, PlacedView,
        Spelling, Spot, laws, reframe, spelled_len_of, write_packet, write_parts,
    };
}

/// Fingerprints, and what a signature hashes (RFC 9580, 5.2.4, 5.5.4).
pub mod hash {
    pub use opgp_hash::{
        CertificateHasher, Digest, Fingerprint, KeyId, Question, Sha1Hasher, Site, Subject, Why,
        ask, ask_at, ask_view, digest, fingerprint, fingerprint_of_view, key_id, laws, reopen,
        write_octets,
    };
}

/// Keyrings merged, one certificate for each primary key, and chosen parts of certificates.
pub mod merge {
    pub use opgp_merge::{Choice, choose, choose_certificate, laws, merge, pick};
}

/// Limits, faults, lengths, and registered numbers with their names (RFC 9580, 3, 9).
pub mod octets {
    pub use opgp_octets::{
        BodyFault, FAULT_LINE, Fault, HashAlgorithm, KeyAlgorithm, Layer, Limits, Malformed, Mpi,
        MpiFault, MpiView, OutOfMemory, Outside, PacketLen, PacketType, ParseFault, PushFault,
        Range, Reason, SignatureType, SubLen, SubpacketKind, fault_line, laws, put, read_len,
        read_sub_len, short_line, shortest, u16_at, u32_at, write_digits, write_hexadecimal,
        write_len, write_sub_len,
    };
}

/// Bodies of keys, user IDs, attributes, literals and signatures (RFC 9580, 5).
pub mod packet {
    pub use opgp_packet::{
        AreaLength, AreaPlaces, AreasSignature, AreasView, Attribute, AttributeSub, AttributeView,
        Body, Cursor, Flag, FourSignature, FourView, Key, KeyId8, KeyView, Literal, LiteralView,
        Material, MaterialView, MpiSpan, Octets, OtherSignature, OtherView, Parsed, SigView,
        Signature, SignatureMaterial, SignatureMaterialView, SixSignature, SixView, Span,
        SubFields, SubMeaning, SubView, Subpacket, Subs, ThreePlaces, ThreeSignature, ThreeView,
        UserId, Walk, fault_in_area, features, field_laws, key_flags, key_laws,
        key_server_preferences, signature_laws,
    };
}

/// What can be said of each signature of a keyring.
pub mod report {
    pub use opgp_report::{
        Finding, FingerprintedReport, FingerprintedReporting, FingerprintedRow, FingerprintedRows,
        IssuerName, Job, KeyIndex, LeftOctets, Met, Place, Posed, Report, Reporting, Row, Verdict,
        Verifier, Visitor, check, index_keys, issuer_named, laws, print_of, question_at, rows_left,
        signer, visit, visit_certificate,
    };
}

/// Keyrings, certificates, signed literals and detached signatures (RFC 9580, 10).
pub mod ring {
    pub use opgp_keyring::{
        BlockOf, Certificate, Component, Components, Composed, Composer, Content,
        DetachedGathering, DetachedPackets, DetachedSignatures, Hangs, Head, Keyring, Lead, Member,
        Members, Packets, Ready, Signatures, SignedGathering, SignedLiteral, body_fault,
        check_bodies, check_bodies_by, compose, compose_signed, compose_signed_by, end_fits,
        flatten, join, laws, normalise, nth, packet_fault, view_fault,
    };
}

/// What the program does: its lines, its tasks, and a run of one.
pub mod stack {
    pub use opgp_stack::{
        Action, Around, BoundTask, CleartextPart, KeyName, RunFault, StateTask, Task, Top, keys_in,
        laws, read_octets, run, run_around, run_bound, run_canonical, run_cleartext,
        run_difference, run_digests, run_last, run_signatures, run_spooled, run_states, time_in,
        write_fingerprinted_report, write_listing, write_placed_report, write_report, write_shown,
    };
}

/// Lines of what is found of signatures, keys and user IDs, and files of verdicts.
pub mod state {
    pub use opgp_state::{
        Basis, DAY, Date, KeyringStates, Placing, RowPlace, add_date, add_date_or_none,
        add_date_word, add_fingerprinted_report, add_placed_report, add_report, add_states,
        claimed_verdicts, date_text, laws, left_of, read_verdicts, verdict_words,
    };
}

/// Which keys, and signatures over documents, may be believed, by a verifier's verdicts.
pub mod valid {
    pub use opgp_valid::{
        Author, Belief, Cause, Certified, Doubt, Facts, Flaw, IdentityState, Judgement, Key,
        KeyPlace, KeyState, Known, KnownKeys, Lack, Life, PartState, Policy, Revoked, Spot,
        Statement, Uses, Why, believe, believe_at, cause_of, identity_state, is_strong, judge,
        key_state, laws, least_digest, list_revocations, part_causes, part_states, revocation_at,
        standing, subpackets, verdicts_behind,
    };
}

/// Lines, octets and armor through one buffer into a writer.
pub mod io {
    pub use opgp_io::{Armoring, Buffer, Held, Output, Sink, Source, Watched, Word, laws, put_all};
}
