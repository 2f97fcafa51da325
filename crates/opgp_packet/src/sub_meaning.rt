//! The typed data of a signature's subpackets.

ghost use Rattle.std.specs.Prelude.{◌≡◌, MatchOption, length, option_map};
ghost use Rattle.opgp_octets.specs.Octets.{IsBodySized};
ghost use Rattle.opgp_octets.specs.declared.subpacket_kind.SubpacketKind.TheVariants as kinds;
ghost use Rattle.opgp_packet.specs.Meaning.{unfit};
ghost use Rattle.opgp_packet.specs.MeaningReading.{meaning_of};
ghost use Rattle.opgp_packet.specs.SubMeaning.{meaning_shown};

use crate::forms::{
    behind_one, behind_two, ended_by_zero, key_id, named, notation, number, one, pairs, revoker,
    two,
};
use crate::sig_view::SigView;
use crate::sub_fields::SubFields;
use opgp_octets::SubpacketKind;

/// A key ID, as a signature contains it: 8 octets (RFC 9580, 5.2.2, 5.2.3.12).
pub type KeyId8 = [u8; 8];

/// The data of a signature's subpacket, by its kind (RFC 9580, 5.2.3.11 to 5.2.3.36). Numbers are
/// kept as they are: no value is refused.
#[derive(Clone, Copy)]
pub enum SubMeaning<'a> {
    /// Kind 2: when the signature was made, in seconds since 1970.
    Created(u32),
    /// Kind 3: how many seconds after its creation the signature expires; 0 for never.
    Expires(u32),
    /// Kind 4: whether the certification is exportable; 0 for no.
    Exportable(u8),
    /// Kind 5: a trust signature.
    Trust {
        /// The depth.
        level: u8,
        /// The amount; 120 and above for full trust.
        amount: u8,
    },
    /// Kind 6: the regular expression that limits a trust signature, without its last octet 0.
    RegularExpression(&'a [u8]),
    /// Kind 7: whether the signature is revocable; 0 for no.
    Revocable(u8),
    /// Kind 9: how many seconds after its creation the key expires; 0 for never.
    KeyExpires(u32),
    /// Kind 11: symmetric algorithms, the most preferred first.
    PreferredSymmetric(&'a [u8]),
    /// Kind 12: who may revoke the key.
    RevocationKey {
        /// The class; bit 7 is set, bit 6 for a sensitive one.
        class: u8,
        /// The number of the revoker's algorithm.
        algorithm: u8,
        /// The revoker's fingerprint: 20 octets.
        fingerprint: &'a [u8],
    },
    /// Kind 16: the issuer's key ID.
    Issuer(KeyId8),
    /// Kind 20: a notation.
    Notation {
        /// The flags; bit 31 for one that people can read.
        flags: u32,
        /// The name.
        name: &'a [u8],
        /// The value.
        value: &'a [u8],
    },
    /// Kind 21: hash algorithms, the most preferred first.
    PreferredHash(&'a [u8]),
    /// Kind 22: compression algorithms, the most preferred first.
    PreferredCompression(&'a [u8]),
    /// Kind 23: flags for key servers.
    KeyServerPreferences(&'a [u8]),
    /// Kind 24: where updates of the key are.
    PreferredKeyServer(&'a [u8]),
    /// Kind 25: whether it is the primary user ID; 0 for no.
    PrimaryUserId(u8),
    /// Kind 26: where the signature's policy is.
    PolicyUri(&'a [u8]),
    /// Kind 27: what the key is for, as flags.
    KeyFlags(&'a [u8]),
    /// Kind 28: the signer's user ID.
    SignersUserId(&'a [u8]),
    /// Kind 29: why a key or a certification was revoked.
    RevocationReason {
        /// The code.
        code: u8,
        /// The text.
        text: &'a [u8],
    },
    /// Kind 30: features that are supported, as flags.
    Features(&'a [u8]),
    /// Kind 31: the signature that this one refers to.
    SignatureTarget {
        /// The number of its key algorithm.
        algorithm: u8,
        /// The number of its hash algorithm.
        hash: u8,
        /// Its hash.
        digest: &'a [u8],
    },
    /// Kind 32: the body of another signature, which [`SigView::parse_body`] accepts.
    ///
    /// [`SigView::parse_body`]: crate::SigView::parse_body
    EmbeddedSignature(&'a [u8]),
    /// Kind 33: the issuer's fingerprint.
    IssuerFingerprint {
        /// The version of the key: 4 or 6.
        version: u8,
        /// The fingerprint: 20 octets in version 4, 32 in version 6.
        fingerprint: &'a [u8],
    },
    /// Kind 35: the fingerprint of an intended recipient.
    IntendedRecipient {
        /// The version of the key: 4 or 6.
        version: u8,
        /// The fingerprint: 20 octets in version 4, 32 in version 6.
        fingerprint: &'a [u8],
    },
    /// Kind 39: AEAD ciphersuites, the most preferred first: pairs of a symmetric and an AEAD
    /// algorithm.
    PreferredAead(&'a [u8]),
    /// One of these kinds, but the data doesn't have its form.
    Unfit,
    /// Any other kind.
    Unknown,
}

impl<'a> SubMeaning<'a> {
    ghost use Rattle.opgp_packet.specs.SubFields.{fields_in, fields_shown};

    /// The fields by their form, whatever the kind; None for `Unfit` and `Unknown`.
    pub fn fields(self) -> Option<SubFields<'a>>
        ensures { option_map fields_shown result ≡ fields_in (meaning_shown self.entry) }
    {
        Some(match self {
            SubMeaning::Created(n) | SubMeaning::Expires(n) | SubMeaning::KeyExpires(n) => {
                SubFields::Number(n)
            }
            SubMeaning::Exportable(n) | SubMeaning::Revocable(n) | SubMeaning::PrimaryUserId(n) => {
                SubFields::Octet(n)
            }
            SubMeaning::Trust { level, amount } => SubFields::TwoOctets(level, amount),
            SubMeaning::RegularExpression(text) => SubFields::EndedText(text),
            SubMeaning::PreferredSymmetric(octets)
            | SubMeaning::PreferredHash(octets)
            | SubMeaning::PreferredCompression(octets)
            | SubMeaning::KeyServerPreferences(octets)
            | SubMeaning::PreferredKeyServer(octets)
            | SubMeaning::PolicyUri(octets)
            | SubMeaning::KeyFlags(octets)
            | SubMeaning::SignersUserId(octets)
            | SubMeaning::Features(octets) => SubFields::Octets(octets),
            SubMeaning::RevocationKey {
                class,
                algorithm,
                fingerprint,
            } => SubFields::Revoker(class, algorithm, fingerprint),
            SubMeaning::Issuer(id) => SubFields::KeyId(id),
            SubMeaning::Notation { flags, name, value } => SubFields::Notation(flags, name, value),
            SubMeaning::RevocationReason { code, text } => SubFields::CodeAndText(code, text),
            SubMeaning::SignatureTarget {
                algorithm,
                hash,
                digest,
            } => SubFields::Target(algorithm, hash, digest),
            SubMeaning::EmbeddedSignature(body) => SubFields::Signature(body),
            SubMeaning::IssuerFingerprint {
                version,
                fingerprint,
            }
            | SubMeaning::IntendedRecipient {
                version,
                fingerprint,
            } => SubFields::Fingerprint(version, fingerprint),
            SubMeaning::PreferredAead(pairs) => SubFields::Pairs(pairs),
            SubMeaning::Unfit | SubMeaning::Unknown => return None,
        })
    }
}

/// The meaning of the data; None if it doesn't have the form of the kind.
#[tactic(auto, unfolding(crate::specs::MeaningReading::meaning_of))]
pub(crate) fn typed(kind: SubpacketKind, o: &[u8]) -> Option<SubMeaning<'_>>
    requires { IsBodySized o.now }
    ensures { MatchOption result (meaning_of kind o.now ≡ unfit)
        (λ m. meaning_shown m ≡ meaning_of kind o.now) }
{
    Some(match kind {
        SubpacketKind::Created => SubMeaning::Created(number(o)?),
        SubpacketKind::Expires => SubMeaning::Expires(number(o)?),
        SubpacketKind::Exportable => SubMeaning::Exportable(one(o)?),
        SubpacketKind::Trust => {
            let (level, amount) = two(o)?;
            SubMeaning::Trust { level, amount }
        }
        SubpacketKind::RegularExpression => SubMeaning::RegularExpression(ended_by_zero(o)?),
        SubpacketKind::Revocable => SubMeaning::Revocable(one(o)?),
        SubpacketKind::KeyExpires => SubMeaning::KeyExpires(number(o)?),
        SubpacketKind::PreferredSymmetric => SubMeaning::PreferredSymmetric(o),
        SubpacketKind::RevocationKey => revocation_key(o)?,
        SubpacketKind::Issuer => SubMeaning::Issuer(key_id(o)?),
        SubpacketKind::Notation => {
            let (flags, name, value) = notation(o)?;
            SubMeaning::Notation { flags, name, value }
        }
        SubpacketKind::PreferredHash => SubMeaning::PreferredHash(o),
        SubpacketKind::PreferredCompression => SubMeaning::PreferredCompression(o),
        SubpacketKind::KeyServerPreferences => SubMeaning::KeyServerPreferences(o),
        SubpacketKind::PreferredKeyServer => SubMeaning::PreferredKeyServer(o),
        SubpacketKind::PrimaryUserId => SubMeaning::PrimaryUserId(one(o)?),
        SubpacketKind::PolicyUri => SubMeaning::PolicyUri(o),
        SubpacketKind::KeyFlags => SubMeaning::KeyFlags(o),
        SubpacketKind::SignersUserId => SubMeaning::SignersUserId(o),
        SubpacketKind::RevocationReason => {
            let (code, text) = behind_one(o)?;
            SubMeaning::RevocationReason { code, text }
        }
        SubpacketKind::Features => SubMeaning::Features(o),
        SubpacketKind::SignatureTarget => signature_target(o)?,
        SubpacketKind::EmbeddedSignature => embedded_signature(o)?,
        SubpacketKind::IssuerFingerprint => issuer_fingerprint(o)?,
        SubpacketKind::IntendedRecipient => intended_recipient(o)?,
        SubpacketKind::PreferredAead => SubMeaning::PreferredAead(pairs(o)?),
        SubpacketKind::Other(_) => SubMeaning::Unknown,
    })
}

/// Who may revoke the key (RFC 9580, 5.2.3.23).
#[tactic(auto, unfolding(crate::specs::MeaningReading::meaning_of))]
fn revocation_key(o: &[u8]) -> Option<SubMeaning<'_>>
    ensures { MatchOption result (meaning_of kinds.RevocationKey o.now ≡ unfit)
        (λ m. meaning_shown m ≡ meaning_of kinds.RevocationKey o.now) }
{
    let (class, algorithm, fingerprint) = revoker(o)?;
    Some(SubMeaning::RevocationKey {
        class,
        algorithm,
        fingerprint,
    })
}

/// The signature that this one refers to (RFC 9580, 5.2.3.33).
#[tactic(auto, unfolding(crate::specs::MeaningReading::meaning_of))]
fn signature_target(o: &[u8]) -> Option<SubMeaning<'_>>
    ensures { MatchOption result (meaning_of kinds.SignatureTarget o.now ≡ unfit)
        (λ m. meaning_shown m ≡ meaning_of kinds.SignatureTarget o.now) }
{
    let (algorithm, hash, digest) = behind_two(o)?;
    Some(SubMeaning::SignatureTarget {
        algorithm,
        hash,
        digest,
    })
}

/// The body of another signature (RFC 9580, 5.2.3.34).
#[tactic(auto, unfolding(crate::specs::MeaningReading::meaning_of))]
fn embedded_signature(o: &[u8]) -> Option<SubMeaning<'_>>
    requires { IsBodySized o.now }
    ensures { MatchOption result (meaning_of kinds.EmbeddedSignature o.now ≡ unfit)
        (λ m. meaning_shown m ≡ meaning_of kinds.EmbeddedSignature o.now) }
{
    let view = SigView::parse_body(o).ok()?;
    Some(SubMeaning::EmbeddedSignature(view.body()))
}

/// The issuer's fingerprint (RFC 9580, 5.2.3.35).
#[tactic(auto, unfolding(crate::specs::MeaningReading::meaning_of))]
fn issuer_fingerprint(o: &[u8]) -> Option<SubMeaning<'_>>
    ensures { MatchOption result (meaning_of kinds.IssuerFingerprint o.now ≡ unfit)
        (λ m. meaning_shown m ≡ meaning_of kinds.IssuerFingerprint o.now) }
{
    let (version, fingerprint) = named(o)?;
    Some(SubMeaning::IssuerFingerprint {
        version,
        fingerprint,
    })
}

/// The fingerprint of an intended recipient (RFC 9580, 5.2.3.36).
#[tactic(auto, unfolding(crate::specs::MeaningReading::meaning_of))]
fn intended_recipient(o: &[u8]) -> Option<SubMeaning<'_>>
    ensures { MatchOption result (meaning_of kinds.IntendedRecipient o.now ≡ unfit)
        (λ m. meaning_shown m ≡ meaning_of kinds.IntendedRecipient o.now) }
{
    let (version, fingerprint) = named(o)?;
    Some(SubMeaning::IntendedRecipient {
        version,
        fingerprint,
    })
}
