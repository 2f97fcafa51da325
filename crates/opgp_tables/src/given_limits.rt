//! Limits as a caller gives them.

ghost use Rattle.std.specs.Prelude.{◌≡◌, ◌↔◌, IsSome, IfSome};
ghost use Rattle.opgp_tables.specs.GivenLimits.{AreThese, MayBeGiven, malformed_by, outside_by};
ghost use Rattle.opgp_tables.specs.GivenLimits.{usual_limits};

use opgp_octets::{Limits, Malformed, Outside};

/// Limits that may be out of their ranges.
#[repr(C)]
#[derive(Clone, Copy)]
pub struct GivenLimits {
    /// The greatest number of octets of an armored line, without its line feed.
    pub line: u64,
    /// The greatest number of octets of a packet's body.
    pub body: u64,
    /// The greatest number of octets of a certificate's packets, headers included.
    pub cert: u64,
    /// The greatest number of octets of the input.
    pub input: u64,
    /// The greatest number of partial lengths of one packet.
    pub pieces: u64,
    /// 0, or the sum of what is wanted: 1, that lines outside of armored blocks are refused unless
    /// they are blank; 2, that malformed signatures are kept.
    pub policies: u64,
}

impl GivenLimits {
    /// These limits, or None if one is out of its range or the policies are none of 0 to 3.
    pub fn limits(&self) -> Option<Limits>
        ensures these { IfSome result (λ l. AreThese l self.now) }
        ensures allowed { IsSome result ↔ MayBeGiven self.now }
    {
        if self.policies > 3 {
            return None;
        }
        let limits = Limits::new(self.line, self.body, self.cert, self.input, self.pieces)?;
        let limits = limits.with_outside(outside_by(self.policies));
        Some(limits.with_malformed(malformed_by(self.policies)))
    }

    /// The usual limits.
    pub fn usual() -> GivenLimits
        ensures { result ≡ usual_limits }
    {
        let limits = Limits::usual();
        GivenLimits {
            line: limits.line(),
            body: limits.body(),
            cert: limits.cert(),
            input: limits.input(),
            pieces: limits.pieces(),
            policies: 0,
        }
    }
}

fn outside_by(policies: u64) -> Outside
    ensures { result ≡ outside_by policies }
{
    match policies {
        1 | 3 => Outside::Refuse,
        _ => Outside::Skip,
    }
}

fn malformed_by(policies: u64) -> Malformed
    ensures { result ≡ malformed_by policies }
{
    match policies {
        2 | 3 => Malformed::Keep,
        _ => Malformed::Refuse,
    }
}
