//! Signatures that say the same sort of thing.

ghost use Rattle.std.specs.Prelude.{◌≡◌};
ghost use Rattle.opgp_valid.specs.Group.{certifies, is_certification_on, is_direct_on, is_in};

use crate::statement::{Author, Statement};
use opgp_octets::SignatureType;

/// What signatures of a certificate have in common of which the newest counts.
#[derive(Clone, Copy)]
pub(crate) enum Sort {
    /// Direct key signatures on the primary key (RFC 9580, 5.2.1.10).
    Direct,
    /// Certifications of user IDs (5.2.1.4 to 5.2.1.7).
    UserIds,
    /// Certifications of user IDs and user attributes.
    Certifications,
    /// Certifications that say that their user ID is the primary one (5.2.3.27).
    Main,
    /// Certifications that let the primary key expire (5.2.3.13).
    Expiring,
    /// Certifications of the user ID or user attribute that is the component of this number.
    Identity(usize),
    /// Bindings of the subkey that is the component of this number (5.2.1.8).
    Bindings(usize),
}

/// The signatures of a sort.
#[derive(Clone, Copy)]
pub(crate) struct Group {
    pub(crate) sort: Sort,
    /// Only those that are good.
    pub(crate) must_be_good: bool,
    /// Only those that the primary key hasn't revoked (RFC 9580, 5.2.1.13).
    pub(crate) must_stand: bool,
}

/// Whether a signature is a direct key signature on the primary key.
fn is_direct(statement: &Statement) -> bool
    ensures { result ≡ is_direct_on statement.now }
{
    matches!(statement.kind, SignatureType::DirectKey) && statement.component.is_none()
}

/// Whether a signature is a certification of a user ID or a user attribute.
pub(crate) fn is_certification(statement: &Statement) -> bool
    ensures { result ≡ is_certification_on statement.now }
{
    certifies(statement.kind) && statement.component.is_some()
}

impl Sort {
    /// Whether a signature is of this sort.
    pub(crate) fn has(self, statement: &Statement) -> bool
        ensures { result ≡ is_in self statement.now }
    {
        match self {
            Sort::Direct => is_direct(statement),
            Sort::UserIds => is_certification(statement) && statement.is_on_user_id,
            Sort::Certifications => is_certification(statement),
            Sort::Main => is_certification(statement) && statement.is_main,
            Sort::Expiring => is_certification(statement) && statement.key_lasts != 0,
            Sort::Identity(number) => {
                is_certification(statement) && statement.component == Some(number)
            }
            Sort::Bindings(number) => {
                matches!(statement.kind, SignatureType::SubkeyBinding)
                    && statement.component == Some(number)
            }
        }
    }
}

impl Group {
    ghost use Rattle.opgp_valid.specs.Group.{any, good, kept, on_component, speaks};

    /// Those of a sort that are good.
    pub(crate) fn good(sort: Sort) -> Group
        ensures { result ≡ good sort }
    {
        Group {
            sort,
            must_be_good: true,
            must_stand: false,
        }
    }

    /// All of a sort.
    pub(crate) fn any(sort: Sort) -> Group
        ensures { result ≡ any sort }
    {
        Group {
            sort,
            must_be_good: false,
            must_stand: false,
        }
    }

    /// Of these, where that is asked for, only those that the primary key hasn't revoked.
    pub(crate) fn kept(self, must_stand: bool) -> Group
        ensures { result ≡ kept must_stand self }
    {
        Group { must_stand, ..self }
    }

    /// Of these, the certifications of the component of this number.
    pub(crate) fn on_component(self, number: usize) -> Group
        ensures { result ≡ on_component number self }
    {
        Group {
            sort: Sort::Identity(number),
            ..self
        }
    }

    /// Whether a signature is one of them, and speaks for a key at this time: it is by the primary
    /// key, nothing critical in it is unknown, and it counts then.
    pub(crate) fn speaks(self, statement: &Statement, at: u64) -> bool
        ensures { result ≡ speaks self at statement.now }
    {
        self.sort.has(statement)
            && (!self.must_be_good || statement.is_good())
            && (!self.must_stand || !statement.is_revoked)
            && statement.is_understood
            && matches!(statement.author, Author::Primary)
            && statement.is_alive(at)
    }
}

/// Whether signatures of this type certify a user ID or a user attribute (RFC 9580, 5.2.1.4 to
/// 5.2.1.7).
pub(crate) fn certifies(kind: SignatureType) -> bool
    ensures { result ≡ certifies kind }
{
    matches!(
        kind,
        SignatureType::GenericCertification
            | SignatureType::PersonaCertification
            | SignatureType::CasualCertification
            | SignatureType::PositiveCertification
    )
}
