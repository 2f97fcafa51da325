//! How large tables are.

ghost use Rattle.std.specs.Prelude.{◌≡◌, ◌+◌, ◌≤◌};
ghost use Rattle.opgp_tables.specs.Sizes.{capped};

/// How many rows a table has, and how many octets they point into. The largest number stands for
/// that many and more.
#[derive(Clone, Copy)]
pub struct TableSizes {
    /// The rows.
    pub rows: u64,
    /// The octets.
    pub bytes: u64,
}

impl TableSizes {
    /// Those of an empty table.
    pub(crate) const NOTHING: TableSizes = TableSizes { rows: 0, bytes: 0 };

    /// Adds so many rows and octets.
    pub(crate) fn add(&mut self, rows: u64, bytes: u64)
        ensures rows { self.new.rows ≡ capped (self.old.rows + rows) }
        ensures bytes { self.new.bytes ≡ capped (self.old.bytes + bytes) }
    {
        *self = TableSizes {
            rows: self.rows.saturating_add(rows),
            bytes: self.bytes.saturating_add(bytes),
        };
    }

    /// These. Called for its contract: they are numbers of 64 bits.
    pub(crate) fn counted(self) -> TableSizes
        ensures same { result ≡ self }
        ensures rows { self.rows ≤ 18446744073709551615 }
        ensures bytes { self.bytes ≤ 18446744073709551615 }
    {
        self
    }
}
