//! Why a signature isn't hashed.

ghost use Rattle.std.specs.Prelude.{◌≡◌, Some};
ghost use Rattle.std.specs.Fmt.{padded};
ghost use Rattle.opgp_hash.specs.Why.{why_text};

use std::error::Error;
use std::fmt;

/// Why a signature over a subject isn't hashed: the first of these that applies.
#[derive(Clone, Copy, Debug, PartialEq, Eq)]
pub enum Why {
    /// Its version isn't 4 or 6.
    Opaque,
    /// No subject of this crate is signed by its type, or it revokes a certification but is over a
    /// key alone.
    Kind,
    /// Signatures of its type are made over another subject, or belong elsewhere.
    Misplaced,
    /// A key has another version than the signature.
    Version,
    /// Its hash algorithm isn't supported, or not in version 6.
    Hash,
}

impl Why {
    /// The name in lower case, as `check` prints it.
    pub fn name(self) -> &'static str
        ensures { result.now ≡ why_text self }
    {
        match self {
            Why::Opaque => "opaque",
            Why::Kind => "kind",
            Why::Misplaced => "misplaced",
            Why::Version => "version",
            Why::Hash => "hash",
        }
    }
}

/// The name.
impl fmt::Display for Why {
    ghost output = { λ why. Some (why_text why) };

    ghost styled_output = { λ why spec. Some (padded spec (why_text why)) };

    fn fmt<W: fmt::Write>(&self, f: &mut fmt::Formatter<W>) -> fmt::Result {
        f.pad(self.name())
    }
}

impl Error for Why {}
