//! Which parts of certificates are chosen.

ghost use Rattle.std.specs.Prelude.{◌≡◌, true};
ghost use Rattle.opgp_merge.specs.Chosen.{is_everything};

/// Which parts of each certificate stay. Each of these leaves out some, whatever the others say.
#[derive(Clone, Copy, Debug, PartialEq, Eq)]
pub struct Choice<'a> {
    /// Only those signatures stay that name the primary key of their certificate as their issuer:
    /// by a fingerprint or a key ID as [`opgp_report::issuer_named`] reads it, in version 3 by the
    /// key ID in a field (RFC 9580, 5.2.2, 5.2.3.12, 5.2.3.35). One that names no issuer, is
    /// malformed, or is of another version goes; so does the revocation by a designated revoker
    /// (5.2.3.23), whose key is another one. No signature is verified.
    pub own_signatures: bool,
    /// User attributes (5.12) go, with the signatures on them.
    pub no_attributes: bool,
    /// Of the user IDs (5.11) of each certificate only those of these numbers stay, counted from 0,
    /// in their order; the others go, with the signatures on them. The numbers may come in any
    /// order, and more than once. None named: every one stays. Each user ID is compared with all of
    /// them.
    pub user_ids: &'a [u64],
}

impl<'a> Choice<'a> {
    /// The choice by which every part stays.
    pub fn everything() -> Choice<'a>
        ensures { is_everything result ≡ true }
    {
        Choice {
            own_signatures: false,
            no_attributes: false,
            user_ids: &[],
        }
    }

    /// Whether every part of any certificate stays.
    pub fn is_everything(&self) -> bool
        ensures { result ≡ is_everything self.now }
    {
        !self.own_signatures && !self.no_attributes && self.user_ids.is_empty()
    }
}
