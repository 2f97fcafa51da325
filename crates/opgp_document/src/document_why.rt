//! Why a signature has no digest of a document.

ghost use Rattle.std.specs.Prelude.{◌≡◌, Some};
ghost use Rattle.std.specs.Fmt.{padded};
ghost use Rattle.opgp_document.specs.DocumentWhy.{why_number, why_text};

use std::error::Error;
use std::fmt;

/// Why a signature has no digest of a document: the first of these that applies.
#[derive(Clone, Copy, Debug, PartialEq, Eq)]
pub enum DocumentWhy {
    /// It is malformed, or its version isn't 4 or 6.
    Opaque,
    /// Its type is neither 00 nor 01: it isn't made over a document (RFC 9580, 5.2.1).
    Kind,
    /// Its hash algorithm isn't supported, or not in version 6 (9.5).
    Hash,
    /// Its type is 01, and the document has no canonical text (5.2.1.2): a carriage return in it
    /// isn't followed by a line feed.
    LineEnds,
}

impl DocumentWhy {
    /// The number by which tables name it: 1, 2 and 5 as for a signature over a part of a
    /// certificate, and 6 for the line ends.
    pub fn number(self) -> u8
        ensures { result ≡ why_number self }
    {
        match self {
            DocumentWhy::Opaque => 1,
            DocumentWhy::Kind => 2,
            DocumentWhy::Hash => 5,
            DocumentWhy::LineEnds => 6,
        }
    }

    /// The name in lower case.
    pub fn name(self) -> &'static str
        ensures { result.now ≡ why_text self }
    {
        match self {
            DocumentWhy::Opaque => "opaque",
            DocumentWhy::Kind => "kind",
            DocumentWhy::Hash => "hash",
            DocumentWhy::LineEnds => "line-ends",
        }
    }
}

/// The name.
impl fmt::Display for DocumentWhy {
    ghost output = { λ why. Some (why_text why) };

    ghost styled_output = { λ why spec. Some (padded spec (why_text why)) };

    fn fmt<W: fmt::Write>(&self, f: &mut fmt::Formatter<W>) -> fmt::Result {
        f.pad(self.name())
    }
}

impl Error for DocumentWhy {}
