//! What the packets on a key or a component are there for.

ghost use Rattle.std.specs.Prelude.{◌≡◌, Ok, is_ok, true};
ghost use Rattle.opgp_octets.specs.SignatureType.{signature_type_of};
ghost use Rattle.opgp_packet.specs.SigView.{sig_view_value};
ghost use Rattle.opgp_hash.specs.Asking.{ask_at_of};
ghost use Rattle.opgp_hash.specs.declared.site.Site.TheVariants.{Hung};
ghost use Rattle.opgp_hash.specs.Subject.{subject_value};
ghost use Rattle.opgp_hash.specs.SubjectValue.{is_within};
ghost use Rattle.opgp_valid.specs.KnownKeys.{knowns};
ghost use Rattle.opgp_valid.specs.Told.{is_print};
ghost use Rattle.opgp_bound.specs.Role.{is_own_and_good, is_self_type, kind_in, role_by, role_read};

use crate::own::is_named_by;
use opgp_hash::{Fingerprint, Site, Subject, ask_at};
use opgp_octets::SignatureType;
use opgp_packet::SigView;
use opgp_report::{KeyIndex, Verdict};
use opgp_valid::{Known, KnownKeys};

/// What a packet on a key or a component is there for.
#[derive(Clone, Copy, Debug, PartialEq, Eq)]
pub enum Role {
    /// It certifies or binds what it is on, and names the primary key as its issuer.
    SelfSignature {
        /// Whether the verdict on it is good over what it follows, and the primary key made it.
        is_genuine: bool,
    },
    /// It revokes the primary key (RFC 9580, 5.2.1.11).
    KeyRevocation,
    /// It is something else: another signature, or a filler.
    Other,
}

/// The keys of a keyring, those of them that made its good revocations, and the fingerprint of a
/// certificate's primary key.
#[derive(Clone, Copy)]
pub(crate) struct Context<'k> {
    pub(crate) known: &'k KnownKeys,
    pub(crate) issuers: &'k KeyIndex,
    pub(crate) primary: Fingerprint,
}

/// Whether signatures of this type are self-signatures, if the primary key made them (RFC 9580,
/// 5.2.1.4 to 5.2.1.8, 5.2.1.10).
fn is_self_type(kind: SignatureType) -> bool
    ensures { result ≡ is_self_type kind }
{
    matches!(
        kind,
        SignatureType::GenericCertification
            | SignatureType::PersonaCertification
            | SignatureType::CasualCertification
            | SignatureType::PositiveCertification
            | SignatureType::SubkeyBinding
            | SignatureType::DirectKey
    )
}

/// The type of a signature (RFC 9580, 5.2.1).
pub(crate) fn kind_in(signature: SigView<'_>) -> Option<u8>
    ensures { result ≡ kind_in (sig_view_value signature.entry) }
{
    match signature {
        SigView::Three(view) => Some(view.kind()),
        SigView::Four(view) => Some(view.kind()),
        SigView::Six(view) => Some(view.kind()),
        SigView::Other(_) => None,
    }
}

/// Whether a key is the one of this fingerprint.
fn is_print(print: Fingerprint, key: Option<Known>) -> bool
    ensures { result ≡ is_print print key }
{
    match key {
        Some(known) => {
            known.print.version() == print.version() && known.print.octets() == print.octets()
        }
        None => false,
    }
}

/// Whether a signature is hashed over this subject (RFC 9580, 5.2.1, 5.2.4).
fn is_hashed(signature: SigView<'_>, subject: Subject<'_>) -> bool
    requires { is_within (subject_value subject) ≡ true }
    ensures { result
        ≡ is_ok (ask_at_of Hung (sig_view_value signature.entry) (subject_value subject.entry)) }
{
    ask_at(Site::Hung, signature, subject).is_ok()
}

impl Context<'_> {
    /// Whether a verdict is good over what a signature follows, and the primary key made it.
    fn is_own_and_good(&self, subject: Subject<'_>, found: Verdict, signature: SigView<'_>) -> bool
        requires { is_within (subject_value subject) ≡ true }
        ensures { result ≡ is_own_and_good (knowns self.now.known.now) self.now.primary
            (subject_value subject.entry) found (sig_view_value signature.entry) }
    {
        matches!(found, Verdict::Good)
            && is_hashed(signature, subject)
            && is_print(self.primary, self.known.issuer(signature))
    }

    /// What a signature of this type is there for.
    fn role_by(
        &self,
        subject: Subject<'_>,
        found: Verdict,
        signature: SigView<'_>,
        kind: SignatureType,
    ) -> Role
        requires { is_within (subject_value subject) ≡ true }
        ensures { result ≡ role_by (knowns self.now.known.now) self.now.primary
            (subject_value subject.entry) found (sig_view_value signature.entry) kind }
    {
        if is_self_type(kind) && is_named_by(self.primary, signature) {
            Role::SelfSignature {
                is_genuine: self.is_own_and_good(subject, found, signature),
            }
        } else if matches!(kind, SignatureType::KeyRevocation) {
            Role::KeyRevocation
        } else {
            Role::Other
        }
    }

    /// What a signature on a subject is there for, by the verdict on it.
    pub(crate) fn role_of(
        &self,
        subject: Subject<'_>,
        found: Verdict,
        signature: SigView<'_>,
    ) -> Role
        requires { is_within (subject_value subject) ≡ true }
        ensures { result ≡ role_read (knowns self.now.known.now) self.now.primary
            (subject_value subject.entry) found (Ok (sig_view_value signature.entry)) }
    {
        match kind_in(signature) {
            Some(kind) => self.role_by(subject, found, signature, SignatureType::from(kind)),
            None => Role::Other,
        }
    }
}
