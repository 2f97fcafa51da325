//! Blocks of ASCII armor, from octets in pieces of any size, without an allocation (RFC 9580, 6.2).

ghost use Rattle.std.specs.Prelude.{◌≡◌, ◌<◌, ◌≤◌, ◌++◌, ◌∷◌, [], false, length, take, IfOk, OnOk};
ghost use Rattle.std.specs.Prelude.{OnErr};
ghost use Rattle.opgp_armor.specs.Written.{data_lines};
ghost use Rattle.opgp_io.specs.Output.{Extends, sink_name, sink_of};
ghost use Rattle.opgp_io.specs.Rows.{AddsRows, BreaksRows, WritesRows};

use crate::output::Output;
use crate::row::{ROW, Row};
use crate::sink::Sink;
use opgp_armor::laws::{
    a_row_has_one_data_line, data_lines_of_whole_rows_join, no_octets_have_no_data_lines,
};
use opgp_armor::{Label, encode_row};
use std::io;

/// Adds a line and its line feed.
fn add_line<W: Sink>(output: &mut Output<'_, W>, line: &[u8]) -> io::Result<()>
    requires { W.has_failed (sink_of output.old) ≡ false }
    ensures { Extends W.held W.has_failed output.old output.new result (line.now ++ 10 ∷ []) }
{
    output.add_both(line, b"\n")
}

/// Adds the data line of a row.
fn add_row<W: Sink>(output: &mut Output<'_, W>, row: &[u8]) -> io::Result<()>
    requires some { 0 < length row.now }
    requires short { length row.now ≤ 48 }
    requires sound { W.has_failed (sink_of output.old) ≡ false }
    ensures { Extends W.held W.has_failed output.old output.new result (data_lines row.now) }
{
    a_row_has_one_data_line();
    let mut letters = [0; 64];
    let count = encode_row(row, &mut letters);
    add_line(output, &letters[..count])
}

/// A block of armor that is being added to an output, without headers (RFC 9580, 6.2).
///
/// Call [`Armoring::begin`], then [`Armoring::add`] as often as needed, then [`Armoring::end`],
/// each with the same output. After an error the output's sink has failed.
#[derive(Drop)]
pub struct Armoring {
    label: Label,
    row: Row,
}

impl Armoring {
    ghost use Rattle.opgp_io.specs.Armoring.{Begins, Ends, ExtendsArmor};
    ghost use Rattle.opgp_io.specs.Armoring.{label_of, row_of, rows_of};

    /// Adds the begin line and a blank line (RFC 9580, 6.2.1).
    pub fn begin<W: Sink>(output: &mut Output<'_, W>, label: Label) -> io::Result<Self>
        requires { W.has_failed (sink_of output.old) ≡ false }
        ensures { Begins W.held W.has_failed output.old output.new label result }
    {
        add_line(output, label.begin_line())?;
        add_line(output, b"")?;
        Ok(Armoring {
            label,
            row: Row::new(),
        })
    }

    /// Adds the data line of the octets that wait, if there are any.
    fn add_waiting<W: Sink>(&self, output: &mut Output<'_, W>) -> io::Result<()>
        requires { W.has_failed (sink_of output.old) ≡ false }
        ensures { Extends W.held W.has_failed output.old output.new result
            (data_lines (row_of self.now)) }
    {
        no_octets_have_no_data_lines();
        if self.row.octets().len() > 0 {
            return add_row(output, self.row.octets());
        }
        Ok(())
    }

    /// Adds a row, or buffers octets until there is one, if there is room. Returns how many it
    /// took.
    fn add_front<W: Sink>(&mut self, output: &mut Output<'_, W>, octets: &[u8]) -> io::Result<usize>
        requires some { 0 < length octets.now }
        requires room { length (row_of self.old) < 48 }
        requires sound { W.has_failed (sink_of output.old) ≡ false }
        ensures same { sink_name output.new ≡ sink_name output.old }
        ensures label { label_of self.new ≡ label_of self.old }
        ensures some { IfOk result (λ n. 0 < n) }
        ensures within { IfOk result (λ n. n ≤ length octets.now) }
        ensures added { IfOk result (λ n.
            AddsRows (rows_of W.held W.has_failed output.old self.old)
            (rows_of W.held W.has_failed output.new self.new) (take n octets.now)) }
        ensures broken { OnErr result (BreaksRows (rows_of W.held W.has_failed output.old self.old)
            (rows_of W.held W.has_failed output.new self.new) octets.now) }
    {
        no_octets_have_no_data_lines();
        if self.row.octets().len() == 0 && octets.len() >= ROW {
            add_row(output, &octets[..ROW])?;
            return Ok(ROW);
        }
        Ok(self.row.fill(octets))
    }

    /// Makes room for more octets: adds the row that waits, if it is full.
    fn make_room<W: Sink>(&mut self, output: &mut Output<'_, W>) -> io::Result<()>
        requires { W.has_failed (sink_of output.old) ≡ false }
        ensures same { sink_name output.new ≡ sink_name output.old }
        ensures label { label_of self.new ≡ label_of self.old }
        ensures room { OnOk result (length (row_of self.new) < 48) }
        ensures written { WritesRows (rows_of W.held W.has_failed output.old self.old)
            (rows_of W.held W.has_failed output.new self.new) result [] }
    {
        no_octets_have_no_data_lines();
        if self.row.octets().len() < ROW {
            return Ok(());
        }
        self.add_waiting(output)?;
        self.row.clear();
        Ok(())
    }

    /// Adds a row, or buffers octets until there is one. Returns how many it took.
    fn add_some<W: Sink>(&mut self, output: &mut Output<'_, W>, octets: &[u8]) -> io::Result<usize>
        requires some { 0 < length octets.now }
        requires sound { W.has_failed (sink_of output.old) ≡ false }
        ensures same { sink_name output.new ≡ sink_name output.old }
        ensures label { label_of self.new ≡ label_of self.old }
        ensures some { IfOk result (λ n. 0 < n) }
        ensures within { IfOk result (λ n. n ≤ length octets.now) }
        ensures added { IfOk result (λ n.
            AddsRows (rows_of W.held W.has_failed output.old self.old)
            (rows_of W.held W.has_failed output.new self.new) (take n octets.now)) }
        ensures broken { OnErr result (BreaksRows (rows_of W.held W.has_failed output.old self.old)
            (rows_of W.held W.has_failed output.new self.new) octets.now) }
    {
        data_lines_of_whole_rows_join();
        self.make_room(output)?;
        self.add_front(output, octets)
    }

    /// Adds the data lines of octets. Up to 48 octets, which don't fill a row, wait for more.
    pub fn add<W: Sink>(&mut self, output: &mut Output<'_, W>, octets: &[u8]) -> io::Result<()>
        requires { W.has_failed (sink_of output.old) ≡ false }
        ensures { ExtendsArmor W.held W.has_failed output.old self.old output.new self.new result
            octets.now }
    {
        data_lines_of_whole_rows_join();
        no_octets_have_no_data_lines();
        let mut rest = octets;
        'pieces: while rest.len() > 0 {
            let n = self.add_some(output, rest)?;
            let (_front, after) = rest.split_at(n);
            rest = after;
        }
        Ok(())
    }

    /// Adds the data line of the octets that wait, and the end line (RFC 9580, 6.2.3). No checksum
    /// is added.
    pub fn end<W: Sink>(self, output: &mut Output<'_, W>) -> io::Result<()>
        requires { W.has_failed (sink_of output.old) ≡ false }
        ensures { Ends W.held W.has_failed output.old self output.new result }
    {
        self.add_waiting(output)?;
        add_line(output, self.label.end_line())
    }
}
