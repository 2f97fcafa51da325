//! The calls over a handle of a reading.

ghost use Rattle.std.specs.Prelude.{◌≡◌, ◌≢◌, ◌↔◌, ◌⊎◌, ◌<◌, ◌+◌, ◌^◌, ◌∷◌, [], length, true};
ghost use Rattle.std.specs.Prelude.{false};
ghost use Rattle.opgp_tables.specs.GivenLimits.{AreThese, MayBeGiven};
ghost use Rattle.opgp_handles.specs.declared.slot.Reading.TheVariants.{Lost};
ghost use Rattle.opgp_handles.specs.Readings.{HasEnded, Holds, HoldsPart, IsEnded, IsGoing};
ghost use Rattle.opgp_handles.specs.Readings.{IsRefused, StaysWhat, begun, waiting_in};
ghost use Rattle.opgp_codec.specs.PartReader.{Use, given, taking};
ghost use Rattle.opgp_tables.specs.FaultRow.{fault_row};
ghost use Rattle.opgp_octets.specs.declared.fault.Fault.{Fault};
ghost use Rattle.opgp_octets.specs.declared.limits.Limits.{Limits};
ghost use Rattle.opgp_keyring.specs.Composed.{PartValue};

use crate::reader::Reader;
use crate::reading::{begin, end_input, push_piece, take_part};
use crate::ring::Ring;
use crate::status::{CLOSED, DONE, LIMITS, MEMORY};
use opgp_tables::{FaultRow, GivenLimits};
use std::alloc::Global;
use std::mem;

/// Begins to read a keyring, armored or binary, that comes in pieces.
pub fn reader_open(alloc: Global, limits: &GivenLimits, reader: &mut Reader) -> u32
    ensures done { result ≡ 0 → (l : Limits) × AreThese l limits.now × (reader.new.is_open ≡ true)
        × IsGoing (begun l) reader.new.slot.held }
    ensures limits { result ≡ 4 → MayBeGiven limits.now → ⊥ }
    ensures allowed { result ≢ 4 → MayBeGiven limits.now }
    ensures kept { result ≢ 0 → reader.new ≡ reader.old }
    ensures status { (result ≡ 0) ⊎ ((result ≡ 3) ⊎ (result ≡ 4)) }
{
    let Some(limits) = limits.limits() else {
        return LIMITS;
    };
    match Reader::of(alloc, begin(alloc, limits)) {
        Ok(new) => {
            drop(mem::replace(reader, new).into_box());
            DONE
        }
        Err(_) => MEMORY,
    }
}

/// Takes the next piece of the input.
pub fn reader_push(alloc: Global, reader: &mut Reader, piece: &[u8]) -> u32
    ghost so_far: { Use }
    requires used { Holds so_far reader.old }
    requires room { length so_far.input + length piece.now < 2 ^ 63 }
    ensures done { result ≡ 0 → (reader.new.is_open ≡ true)
        × IsGoing (given so_far piece.now) reader.new.slot.held }
    ensures ended { result ≡ 7 → HasEnded so_far reader.old.slot.held
        × (reader.new.slot.held ≡ reader.old.slot.held) }
    ensures lost { result ≡ 3 → reader.new.slot.held ≡ Lost }
    ensures before { reader.old.is_open ≡ true → reader.old.slot.held ≡ Lost → result ≡ 3 }
    ensures behind { reader.old.is_open ≡ true → HasEnded so_far reader.old.slot.held → result ≡ 7 }
    ensures open { reader.new.is_open ≡ reader.old.is_open }
    ensures kept { result ≢ 0 → Holds so_far reader.new }
    ensures closed { (result ≡ 5) ↔ (reader.old.is_open ≡ false) }
    ensures status { (result ≡ 0) ⊎ ((result ≡ 3) ⊎ ((result ≡ 5) ⊎ (result ≡ 7))) }
{
    let Some(mut held) = reader.take(alloc) else {
        return CLOSED;
    };
    let status = push_piece(&mut held, piece);
    reader.give(held);
    status
}

/// Keeps the next part of the keyring in another handle, which lets go what it held.
pub fn reader_take(alloc: Global, reader: &mut Reader, into: &mut Ring) -> u32
    ghost so_far: { Use }
    requires { Holds so_far reader.old }
    ensures done { result ≡ 0 → (part : PartValue) × HoldsPart into.new part
        × (waiting_in reader.old.slot.held ≡ part ∷ waiting_in reader.new.slot.held)
        × Holds (taking so_far (part ∷ [])) reader.new }
    ensures stays { (result ≡ 0) ⊎ (result ≡ 6) → (reader.new.is_open ≡ true)
        × StaysWhat reader.old.slot.held reader.new.slot.held }
    ensures none { result ≡ 6 → waiting_in reader.old.slot.held ≡ [] }
    ensures lost { result ≡ 3 → reader.new.slot.held ≡ Lost }
    ensures before { reader.old.is_open ≡ true → reader.old.slot.held ≡ Lost → result ≡ 3 }
    ensures empty { reader.old.is_open ≡ true → waiting_in reader.old.slot.held ≡ []
        → (result ≡ 6) ⊎ (reader.old.slot.held ≡ Lost) }
    ensures open { reader.new.is_open ≡ reader.old.is_open }
    ensures same { result ≢ 0 → Holds so_far reader.new }
    ensures kept { result ≢ 0 → into.new ≡ into.old }
    ensures closed { (result ≡ 5) ↔ (reader.old.is_open ≡ false) }
    ensures status { (result ≡ 0) ⊎ ((result ≡ 3) ⊎ ((result ≡ 5) ⊎ (result ≡ 6))) }
{
    let Some(mut held) = reader.take(alloc) else {
        return CLOSED;
    };
    let status = take_part(alloc, &mut held, into);
    reader.give(held);
    status
}

/// Ends the input, and says how it has ended.
pub fn reader_end(alloc: Global, reader: &mut Reader, fault: &mut FaultRow) -> u32
    ghost so_far: { Use }
    requires { Holds so_far reader.old }
    ensures done { result ≡ 0 → (reader.new.is_open ≡ true)
        × IsEnded so_far reader.new.slot.held }
    ensures refused { result ≡ 1 → (f : Fault) × (reader.new.is_open ≡ true)
        × IsRefused so_far reader.new.slot.held f × (fault.new ≡ fault_row f) }
    ensures fault { result ≢ 1 → fault.new ≡ fault.old }
    ensures again { reader.old.is_open ≡ true → HasEnded so_far reader.old.slot.held
        → reader.new.slot.held ≡ reader.old.slot.held }
    ensures lost { result ≡ 3 → reader.new.slot.held ≡ Lost }
    ensures before { reader.old.is_open ≡ true → reader.old.slot.held ≡ Lost → result ≡ 3 }
    ensures open { reader.new.is_open ≡ reader.old.is_open }
    ensures kept { Holds so_far reader.new }
    ensures closed { (result ≡ 5) ↔ (reader.old.is_open ≡ false) }
    ensures status { (result ≡ 0) ⊎ ((result ≡ 1) ⊎ ((result ≡ 3) ⊎ (result ≡ 5))) }
{
    let Some(mut held) = reader.take(alloc) else {
        return CLOSED;
    };
    let status = end_input(&mut held, fault);
    reader.give(held);
    status
}

/// Lets go what a handle holds.
pub fn reader_close(reader: Reader) {
    drop(reader.into_box());
}

/// Lets go what a handle holds, and leaves it closed.
pub fn reader_clear(alloc: Global, reader: &mut Reader)
    ensures { reader.new.is_open ≡ false }
{
    drop(reader.take(alloc));
}
