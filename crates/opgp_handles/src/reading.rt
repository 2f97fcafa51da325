//! What a handle does with the reading that it holds.

ghost use Rattle.std.specs.Prelude.{◌≡◌, ◌≢◌, ◌↔◌, ◌<◌, ◌+◌, ◌^◌, ◌⊎◌, ◌++◌, [], ◌∷◌, length, true};
ghost use Rattle.std.specs.Prelude.{None};
ghost use Rattle.opgp_octets.specs.declared.fault.Fault.{Fault};
ghost use Rattle.opgp_octets.specs.declared.limits.Limits.{Limits};
ghost use Rattle.opgp_keyring.specs.Composed.{PartValue};
ghost use Rattle.opgp_keyring.specs.State.{part_of, ready_parts};
ghost use Rattle.opgp_codec.specs.PartReader.{Use, given, taking};
ghost use Rattle.opgp_tables.specs.FaultRow.{fault_row};
ghost use Rattle.opgp_handles.specs.Readings.{HasEnded, HoldsPart, IsEnded, IsGoing, IsOver};
ghost use Rattle.opgp_handles.specs.Readings.{IsReading, IsRefused, StaysWhat, begun, waiting_in};
ghost use Rattle.opgp_handles.specs.declared.slot.Reading.TheVariants.{Lost};

use crate::making::keep;
use crate::ring::Ring;
use crate::slot::Reading;
use crate::status::{DONE, ENDED, MEMORY, NO_ROW, REFUSED};
use opgp_codec::{Mode, PartReader};
use opgp_keyring::{Keyring, Ready};
use opgp_octets::Limits;
use opgp_tables::FaultRow;
use std::alloc::Global;
use std::mem;

/// A reading that was given nothing.
pub(crate) fn begin(alloc: Global, limits: Limits) -> Reading
    ensures { IsGoing (begun limits) result }
{
    Reading::Going(PartReader::new(alloc, Mode::Auto, limits))
}

/// Takes a piece, unless the input has ended.
pub(crate) fn push_piece(reading: &mut Reading, piece: &[u8]) -> u32
    ghost so_far: { Use }
    requires used { IsReading so_far reading.old }
    requires room { length so_far.input + length piece.now < 2 ^ 63 }
    ensures done { result ≡ 0 → IsGoing (given so_far piece.now) reading.new }
    ensures ended { result ≡ 7 → HasEnded so_far reading.old × (reading.new ≡ reading.old) }
    ensures lost { result ≡ 3 → reading.new ≡ Lost }
    ensures before { reading.old ≡ Lost → result ≡ 3 }
    ensures behind { HasEnded so_far reading.old → result ≡ 7 }
    ensures status { (result ≡ 0) ⊎ ((result ≡ 3) ⊎ (result ≡ 7)) }
{
    let pushed = match reading {
        Reading::Going(reader) => reader.push(piece),
        Reading::Lost => return MEMORY,
        Reading::Ended(_) | Reading::Refused(_) => return ENDED,
    };
    match pushed {
        Ok(()) => DONE,
        Err(_) => {
            drop(mem::replace(reading, Reading::Lost));
            MEMORY
        }
    }
}

/// Ends the input, unless it has ended.
fn end(held: Reading) -> Reading
    ghost so_far: { Use }
    requires { IsReading so_far held }
    ensures over { IsOver so_far result }
    ensures again { HasEnded so_far held → result ≡ held }
    ensures before { held ≡ Lost → result ≡ Lost }
{
    let reader = match held {
        Reading::Going(reader) => reader,
        Reading::Ended(waiting) => return Reading::Ended(waiting),
        Reading::Refused(fault) => return Reading::Refused(fault),
        Reading::Lost => return Reading::Lost,
    };
    match reader.finish() {
        Ok(Ok(waiting)) => Reading::Ended(waiting),
        Ok(Err(fault)) => Reading::Refused(fault),
        Err(_) => Reading::Lost,
    }
}

/// How the input has ended.
fn tell_end(held: &Reading, fault: &mut FaultRow) -> u32
    ghost so_far: { Use }
    requires { IsOver so_far held.now }
    ensures done { result ≡ 0 → IsEnded so_far held.now }
    ensures refused { result ≡ 1
        → (f : Fault) × IsRefused so_far held.now f × (fault.new ≡ fault_row f) }
    ensures lost { (result ≡ 3) ↔ (held.now ≡ Lost) }
    ensures fault { result ≢ 1 → fault.new ≡ fault.old }
    ensures status { (result ≡ 0) ⊎ ((result ≡ 1) ⊎ (result ≡ 3)) }
{
    match held {
        Reading::Ended(_) => DONE,
        Reading::Refused(found) => {
            *fault = FaultRow::of(*found);
            REFUSED
        }
        Reading::Lost => MEMORY,
        Reading::Going(_) => unreachable!(),
    }
}

/// Ends the input, unless it has ended, and says how it has.
pub(crate) fn end_input(reading: &mut Reading, fault: &mut FaultRow) -> u32
    ghost so_far: { Use }
    requires { IsReading so_far reading.old }
    ensures done { result ≡ 0 → IsEnded so_far reading.new }
    ensures refused { result ≡ 1
        → (f : Fault) × IsRefused so_far reading.new f × (fault.new ≡ fault_row f) }
    ensures fault { result ≢ 1 → fault.new ≡ fault.old }
    ensures used { IsReading so_far reading.new }
    ensures again { HasEnded so_far reading.old → reading.new ≡ reading.old }
    ensures lost { result ≡ 3 → reading.new ≡ Lost }
    ensures before { reading.old ≡ Lost → result ≡ 3 }
    ensures status { (result ≡ 0) ⊎ ((result ≡ 1) ⊎ (result ≡ 3)) }
{
    let ended = end(mem::replace(reading, Reading::Lost));
    let status = tell_end(&ended, fault);
    drop(mem::replace(reading, ended));
    status
}

/// Takes the next part, if one waits.
fn next(reading: &mut Reading) -> Option<Ready>
    ghost so_far: { Use }
    requires { IsReading so_far reading.old }
    ensures used { IsReading (taking so_far (ready_parts result)) reading.new }
    ensures waits { waiting_in reading.old ≡ ready_parts result ++ waiting_in reading.new }
    ensures none { result ≡ None → waiting_in reading.old ≡ [] }
    ensures stays { StaysWhat reading.old reading.new }
{
    match reading {
        Reading::Going(reader) => reader.take(),
        Reading::Ended(waiting) => waiting.take(),
        Reading::Refused(_) | Reading::Lost => None,
    }
}

/// Keeps a part as a keyring of its own.
fn keep_part(alloc: Global, part: Ready, into: &mut Ring) -> u32
    ensures done { result ≡ 0 → HoldsPart into.new (part_of part) }
    ensures kept { result ≢ 0 → into.new ≡ into.old }
    ensures status { (result ≡ 0) ⊎ (result ≡ 3) }
{
    let mut keyring = Keyring::empty(alloc);
    match keyring.keep(part) {
        Ok(()) => keep(alloc, into, keyring),
        Err(_) => MEMORY,
    }
}

/// Keeps the next part, if one waits, as a keyring of its own.
pub(crate) fn take_part(alloc: Global, reading: &mut Reading, into: &mut Ring) -> u32
    ghost so_far: { Use }
    requires { IsReading so_far reading.old }
    ensures done { result ≡ 0 → (part : PartValue) × HoldsPart into.new part
        × (waiting_in reading.old ≡ part ∷ waiting_in reading.new)
        × IsReading (taking so_far (part ∷ [])) reading.new }
    ensures stays { result ≢ 3 → StaysWhat reading.old reading.new }
    ensures none { result ≡ 6 → (waiting_in reading.old ≡ []) × IsReading so_far reading.new }
    ensures lost { result ≡ 3 → reading.new ≡ Lost }
    ensures before { reading.old ≡ Lost → result ≡ 3 }
    ensures empty { waiting_in reading.old ≡ [] → (result ≡ 6) ⊎ (reading.old ≡ Lost) }
    ensures kept { result ≢ 0 → into.new ≡ into.old }
    ensures status { (result ≡ 0) ⊎ ((result ≡ 3) ⊎ (result ≡ 6)) }
{
    if let Reading::Lost = reading {
        return MEMORY;
    }
    let part = match next(reading) {
        Some(part) => part,
        None => return NO_ROW,
    };
    let status = keep_part(alloc, part, into);
    if status != DONE {
        drop(mem::replace(reading, Reading::Lost));
    }
    status
}
