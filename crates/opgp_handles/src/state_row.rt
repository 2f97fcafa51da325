//! A row of the table of states.

ghost use Rattle.std.specs.Prelude.{◌≡◌};
ghost use Rattle.opgp_handles.specs.States.{flags_of, identity_row, key_number, key_row};
ghost use Rattle.opgp_handles.specs.States.{state_row};

use crate::standings::why_number;
use opgp_tables::NONE;
use opgp_valid::{IdentityState, KeyState, PartState, Uses, Why};

/// How a key, user ID or user attribute of a keyring stands at a time.
#[repr(C)]
#[derive(Clone, Copy)]
pub struct StateRow {
    /// The number of its certificate.
    pub certificate: u64,
    /// The number of the component that it is; `NONE` for a primary key.
    pub component: u64,
    /// When a key expires, or its primary key does, in seconds since 1970; `NONE` for never, and
    /// for what isn't a key.
    pub end: u64,
    /// From when on a key is there, in seconds since 1970; 0 for what isn't a key.
    pub begin: u32,
    /// 0 for a key that is of use, or else 2 to 5 for why it isn't: the numbers of [`Why`]; 14 for
    /// one that may be used for nothing. 0 for a user ID or attribute that is certified, 2 for one
    /// that is revoked, and 4 for any other.
    pub why: u8,
    /// 1 for a key; else 0.
    pub is_key: u8,
    /// The key flags of what a key may be used for (RFC 9580, 5.2.3.29): 1, 2, 4 and 32 added up.
    pub uses: u8,
    /// 1 for a revoked key whose first revocation states a reason; else 0.
    pub has_reason: u8,
    /// The code of that reason (5.2.3.31); else 0.
    pub reason: u8,
    /// Zeros.
    pub reserved: [u8; 7],
}

/// The octet of key flags that allows these uses.
fn flags_of(uses: Uses) -> u8
    ensures { result ≡ flags_of uses }
{
    let certify = if uses.certify { 1 } else { 0 };
    let sign = if uses.sign { 2 } else { 0 };
    let encrypt = if uses.encrypt { 4 } else { 0 };
    let authenticate = if uses.authenticate { 32 } else { 0 };
    certify + sign + encrypt + authenticate
}

/// The number of why a key is of no use; 0 if it is.
fn key_number(why: Option<Why>, uses: Uses) -> u8
    ensures { result ≡ key_number why uses }
{
    match why {
        Some(why) => why_number(why),
        None if uses.has_use() => 0,
        None => 14,
    }
}

/// The row of a key.
fn key_row(certificate: u64, component: u64, state: KeyState) -> StateRow
    ensures { result ≡ key_row certificate component state }
{
    StateRow {
        certificate,
        component,
        end: state.end.unwrap_or(NONE),
        begin: state.begin,
        why: key_number(state.why, state.uses),
        is_key: 1,
        uses: flags_of(state.uses),
        has_reason: if state.reason.is_some() { 1 } else { 0 },
        reason: state.reason.unwrap_or(0),
        reserved: [0; 7],
    }
}

/// The row of a user ID or user attribute.
fn identity_row(certificate: u64, component: u64, state: IdentityState) -> StateRow
    ensures { result ≡ identity_row certificate component state }
{
    StateRow {
        certificate,
        component,
        end: NONE,
        begin: 0,
        why: match state {
            IdentityState::Certified => 0,
            IdentityState::Revoked => 2,
            IdentityState::Unbound => 4,
        },
        is_key: 0,
        uses: 0,
        has_reason: 0,
        reason: 0,
        reserved: [0; 7],
    }
}

impl StateRow {
    /// The row of a part of a certificate.
    pub(crate) fn of(certificate: u64, component: u64, state: PartState) -> StateRow
        ensures { result ≡ state_row certificate component state }
    {
        match state {
            PartState::Key(state) => key_row(certificate, component, state),
            PartState::Identity(state) => identity_row(certificate, component, state),
        }
    }
}
