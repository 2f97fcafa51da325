//! Why a key isn't believed, for other languages.

ghost use Rattle.std.specs.Prelude.{◌≡◌};
ghost use Rattle.opgp_handles.specs.Causes.{cause_row, is_primary_key, judgement_row, lack_number};

use crate::standings::why_number;
use opgp_tables::NONE;
use opgp_valid::{Cause, Judgement, Key, Lack};

/// Why a key isn't believed: `opgp_cause` of the header.
#[repr(C)]
#[derive(Clone, Copy)]
pub struct CauseRow {
    /// A date, in seconds since 1970, as [`Cause`] has it; `NONE` for none.
    pub date: u64,
    /// The number of the component that the signature is on that says so; `NONE` for the primary
    /// key, and where there is no such signature.
    pub component: u64,
    /// Its number among the packets that follow that; `NONE` where there is no such signature.
    pub hang: u64,
    /// The number of the first reason; 0 if the key is believed.
    pub why: u8,
    /// 1 if it holds of the primary key; else 0.
    pub is_primary: u8,
    /// 1 if it holds now, and didn't when the signature over the document was made; else 0.
    pub is_now: u8,
    /// The number of what the signature lacks, 1 to 7; 0 for nothing.
    pub lack: u8,
    /// Zeros.
    pub reserved: [u8; 4],
}

/// The number of what a signature lacks.
fn lack_number(lack: Option<Lack>) -> u8
    ensures { result ≡ lack_number lack }
{
    match lack {
        None => 0,
        Some(Lack::Newer) => 1,
        Some(Lack::Lapsed) => 2,
        Some(Lack::Weak) => 3,
        Some(Lack::Malformed) => 4,
        Some(Lack::Undated) => 5,
        Some(Lack::Young) => 6,
        Some(Lack::Critical) => 7,
    }
}

/// Whether a key is a primary key.
fn is_primary_key(key: Key) -> bool
    ensures { result ≡ is_primary_key key }
{
    matches!(key, Key::Primary)
}

/// The row of a cause.
fn cause_row(cause: Cause) -> CauseRow
    ensures { result ≡ cause_row cause }
{
    let (component, hang) = match cause.spot {
        Some(spot) => (
            match spot.component {
                Some(component) => component as u64,
                None => NONE,
            },
            spot.hang as u64,
        ),
        None => (NONE, NONE),
    };
    CauseRow {
        date: cause.date.unwrap_or(NONE),
        component,
        hang,
        why: why_number(cause.why),
        is_primary: if is_primary_key(cause.key) { 1 } else { 0 },
        is_now: if cause.is_now { 1 } else { 0 },
        lack: lack_number(cause.lack),
        reserved: [0; 4],
    }
}

impl CauseRow {
    /// The row of a judgement; None if there is no key.
    pub(crate) fn of(judgement: Judgement) -> Option<CauseRow>
        ensures { result ≡ judgement_row judgement }
    {
        match judgement {
            Judgement::Stands => Some(CauseRow {
                date: NONE,
                component: NONE,
                hang: NONE,
                why: 0,
                is_primary: 0,
                is_now: 0,
                lack: 0,
                reserved: [0; 4],
            }),
            Judgement::Fails(cause) => Some(cause_row(cause)),
            Judgement::NoKey => None,
        }
    }
}
