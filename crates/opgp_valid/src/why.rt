//! Why a key isn't believed.

ghost use Rattle.std.specs.Prelude.{◌≡◌, Some};
ghost use Rattle.std.specs.Fmt.{padded};
ghost use Rattle.opgp_valid.specs.Why.{why_text};

use std::error::Error;
use std::fmt;

/// Why a key isn't believed for a signature: the first of these that applies.
#[derive(Clone, Copy, Debug, PartialEq, Eq)]
pub enum Why {
    /// The signature was made after the time at which it is read.
    Future,
    /// The key is revoked, or the primary key of its certificate is.
    Revoked,
    /// The signature was made before the key was created, or before the primary key was.
    Early,
    /// Nothing that counts binds the key to its certificate, or speaks for the primary key.
    Unbound,
    /// The key has expired, or the primary key has.
    Expired,
    /// The key isn't said to be one that signs.
    Flags,
    /// A binding of the subkey has no good signature by the subkey that counts.
    Back,
}

impl Why {
    /// The name in lower case, as it is printed.
    pub fn name(self) -> &'static str
        ensures { result.now ≡ why_text self }
    {
        match self {
            Why::Future => "future",
            Why::Revoked => "revoked",
            Why::Early => "early",
            Why::Unbound => "unbound",
            Why::Expired => "expired",
            Why::Flags => "flags",
            Why::Back => "back",
        }
    }
}

/// The name.
impl fmt::Display for Why {
    ghost output = { λ why. Some (why_text why) };

    ghost styled_output = { λ why spec. Some (padded spec (why_text why)) };

    fn fmt<W: fmt::Write>(&self, f: &mut fmt::Formatter<W>) -> fmt::Result {
        f.pad(self.name())
    }
}

impl Error for Why {}
