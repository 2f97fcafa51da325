//! Reports.

ghost use Rattle.std.specs.Prelude.{◌≡◌, map};
ghost use Rattle.opgp_report.specs.Row.{report_rows, row_value};

use crate::row::Row;

/// What is found of the signatures of a keyring, in order.
#[derive(Drop)]
pub struct Report {
    pub(crate) rows: Vec<Row>,
}

impl Report {
    /// Its rows, in order.
    pub fn rows(&self) -> &[Row]
        ensures { map row_value result.now ≡ report_rows self.now }
    {
        &self.rows
    }
}
