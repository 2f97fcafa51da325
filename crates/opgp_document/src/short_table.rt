//! A table that is too short.

ghost use Rattle.std.specs.Prelude.{Some};
ghost use Rattle.opgp_document.specs.ShortTable.{short_table_text};

use std::error::Error;
use std::fmt;

/// A table has fewer octets than the text that it was to get. Nothing was written.
#[derive(Clone, Copy, Debug, PartialEq, Eq)]
pub struct ShortTable {
    /// How many octets the text has.
    pub wanted: usize,
}

/// `the text has N octets`
impl fmt::Display for ShortTable {
    ghost output = { λ short. Some (short_table_text short) };

    fn fmt<W: fmt::Write>(&self, f: &mut fmt::Formatter<W>) -> fmt::Result {
        write!(f, "the text has {} octets", self.wanted)
    }
}

impl Error for ShortTable {}
