//! The names of numbers, and the lines of faults.

ghost use Rattle.std.specs.Prelude.{◌≡◌, ◌≢◌, ◌↔◌, ◌⊎◌, ◌<◌, length, ℕ, List, Some, None};
ghost use Rattle.std.specs.Prelude.{MatchOption, ⊤, ◌≤◌};
ghost use Rattle.opgp_handles.specs.Calls.{IsFilled};
ghost use Rattle.opgp_tables.specs.FaultRow.{fault_of};
ghost use Rattle.opgp_handles.specs.Whys.{named};
ghost use Rattle.opgp_octets.specs.Fault.{fault_text};
ghost use Rattle.opgp_octets.specs.declared.fault.Fault.{Fault};

use crate::calls::put_octets;
use crate::status::NO_ROW;
use crate::whys::unbelieved_name;
use opgp_tables::{FaultRow, NumberTable, short_line};

/// Puts the name that a table has for a number.
pub fn put_name(table: u32, number: u8, text: &mut [u8], size: &mut u64) -> u32
    ensures done { result ≡ 0 → (name : List ℕ)
        × (named table number ≡ Some name)
        × IsFilled name text.old text.new × (size.new ≡ length name) }
    ensures room { result ≡ 2 → (name : List ℕ)
        × (named table number ≡ Some name)
        × (length text.old < length name) × (size.new ≡ length name) }
    ensures short { result ≡ 2 → length text.old < 52 }
    ensures none { (result ≡ 6) ↔ (named table number ≡ None) }
    ensures kept { result ≢ 0 → text.new ≡ text.old }
    ensures size { result ≡ 6 → size.new ≡ size.old }
    ensures status { (result ≡ 0) ⊎ ((result ≡ 2) ⊎ (result ≡ 6)) }
{
    match name_in(table, number) {
        Some(name) => put_octets(name.as_bytes(), text, size),
        None => NO_ROW,
    }
}

/// The name that the table of this number has for a number.
fn name_in(table: u32, number: u8) -> Option<&'static str>
    ensures value { MatchOption result (named table number ≡ None)
        (λ name. named table number ≡ Some name.now) }
    ensures short { MatchOption result ⊤ (λ name. length name.now ≤ 52) }
{
    if table == 8 {
        unbelieved_name(number)
    } else {
        NumberTable::of(table)?.name(number)
    }
}

/// Puts the line of a fault, without a line end.
pub fn put_fault_line(fault: &FaultRow, text: &mut [u8], size: &mut u64) -> u32
    ensures done { result ≡ 0 → (f : Fault) × (fault_of fault.now ≡ Some f)
        × IsFilled (fault_text f) text.old text.new × (size.new ≡ length (fault_text f)) }
    ensures room { result ≡ 2 → (f : Fault) × (fault_of fault.now ≡ Some f)
        × (length text.old < length (fault_text f)) × (size.new ≡ length (fault_text f)) }
    ensures short { result ≡ 2 → length text.old < 108 }
    ensures none { (result ≡ 6) ↔ (fault_of fault.now ≡ None) }
    ensures kept { result ≢ 0 → text.new ≡ text.old }
    ensures size { result ≡ 6 → size.new ≡ size.old }
    ensures status { (result ≡ 0) ⊎ ((result ≡ 2) ⊎ (result ≡ 6)) }
{
    match fault.fault() {
        Some(fault) => put_octets(short_line(&fault).as_str().as_bytes(), text, size),
        None => NO_ROW,
    }
}
