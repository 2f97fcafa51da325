//! The library for C: opgp.h declares what it exports.
//!
//! A handle keeps a keyring that was read once; each other call fills tables of the caller from it,
//! and answers by a status. Nothing else is kept, so calls over different handles may be made from
//! any number of threads at once.
#![tactic(auto)]

ghost use Rattle.std.specs.Prelude.{◌≡◌, ◌≢◌, ◌↔◌, ◌⊎◌, ◌<◌, ◌+◌, ◌^◌, ◌++◌, ◌∷◌, [], length, true};
ghost use Rattle.std.specs.Prelude.{false, ℕ, List, Some, None, Ok};
ghost use Rattle.std.specs.List.{slice_get};
ghost use Rattle.opgp_codec.specs.Writing.{packets_text};
ghost use Rattle.opgp_tables.specs.GivenLimits.{AreThese, MayBeGiven, usual_limits};
ghost use Rattle.opgp_tables.specs.Jobs.{job_bytes, job_rows};
ghost use Rattle.opgp_tables.specs.Keys.{key_bytes, key_rows};
ghost use Rattle.opgp_tables.specs.Packets.{packet_bytes, packet_rows};
ghost use Rattle.opgp_tables.specs.Subpackets.{subpacket_bytes, subpacket_rows};
ghost use Rattle.opgp_hash.specs.Hashed.{hashed};
ghost use Rattle.opgp_hash.specs.QuestionValue.{QuestionValue};
ghost use Rattle.opgp_report.specs.Asked.{asked_of, question_in};
ghost use Rattle.opgp_merge.specs.Chosen.{chosen_keyring};
ghost use Rattle.opgp_merge.specs.Picked.{picked_keyring};
ghost use Rattle.opgp_merge.specs.Merged.{merged_of};
ghost use Rattle.opgp_merge.specs.declared.choice.Choice.{Choice};
ghost use Rattle.opgp_keyring.specs.Joining.{nth_of};
ghost use Rattle.opgp_keyring.specs.Keyring.{flat};
ghost use Rattle.opgp_keyring.specs.Normal.{normal_of};
ghost use Rattle.opgp_handles.specs.Calls.{Answers, AnswersBy, HoldsTheSame, IsChoice, IsFilled};
ghost use Rattle.opgp_handles.specs.Calls.{KeepsMade, PutsTables, Refuses, RefusesBy, mode_by};
ghost use Rattle.opgp_handles.specs.Calls.{out_of};
ghost use Rattle.opgp_handles.specs.declared.slot.Reading.TheVariants.{Lost};
ghost use Rattle.opgp_codec.specs.declared.mode.Mode.{Mode};
ghost use Rattle.opgp_tables.specs.HashedRows.{hashed_bytes, hashed_rows};
ghost use Rattle.opgp_handles.specs.Readings.{HasEnded, Holds, HoldsPart, IsEnded, IsGoing};
ghost use Rattle.opgp_handles.specs.Readings.{IsRefused, StaysWhat, begun, waiting_in};
ghost use Rattle.opgp_codec.specs.PartReader.{Use, given, taking};
ghost use Rattle.opgp_tables.specs.FaultRow.{fault_of, fault_row};
ghost use Rattle.opgp_handles.specs.Whys.{named};
ghost use Rattle.opgp_octets.specs.Fault.{fault_text};
ghost use Rattle.opgp_octets.specs.declared.fault.Fault.{Fault};
ghost use Rattle.opgp_octets.specs.declared.limits.Limits.{Limits};
ghost use Rattle.opgp_keyring.specs.Composed.{PartValue};

pub mod beliefs;
pub mod documents;
pub mod finding;
pub mod revocations;
pub mod signed_texts;
pub mod standings;
pub mod states;
pub mod texts;
pub mod user_ids;
pub mod verdict_files;

use opgp_handles::{
    Making, Reader, Ring, Sizes, Window, keep_chosen, keep_made, keep_picked, put_fault_line,
    put_hashed, put_name, put_table, reader_clear, reader_close, reader_end, reader_open,
    reader_push, reader_take, ring_certificate, ring_clear, ring_close, ring_join, ring_octets,
    ring_open, ring_open_mode, ring_skipped, ring_write,
};
use opgp_merge::Choice;
use opgp_tables::{FaultRow, GivenLimits, HashedRow, JobRow, KeyRow, PacketRow, SubpacketRow};
use std::alloc::Global;

/// The version of these calls and structs; a program that was compiled for another one can't use
/// the library.
#[unsafe(no_mangle)]
pub extern "C" fn opgp_abi() -> u32
    ensures { result ≡ 3 }
{
    3
}

/// The usual limits.
#[unsafe(no_mangle)]
pub extern "C" fn opgp_usual_limits(limits: &mut GivenLimits)
    ensures { limits.new ≡ usual_limits }
{
    *limits = GivenLimits::usual();
}

/// Puts the name that a table has for a number: those of the standard for packet types, algorithms,
/// signature types and kinds of subpackets, those of the program for the layers and reasons of
/// faults, for why a signature isn't hashed, and for why it or its key isn't believed. It has 52
/// octets at most.
///
/// The status says whether it is done; else the text is unchanged: it has too little room, or there
/// is no such table, or it has no name for the number.
#[unsafe(no_mangle)]
pub extern "C" fn opgp_name(table: u32, number: u8, text: &mut [u8], size: &mut u64) -> u32
    ensures done { result ≡ 0 → (name : List ℕ)
        × (named table number ≡ Some name)
        × IsFilled name text.old text.new × (size.new ≡ length name) }
    ensures room { result ≡ 2 → (name : List ℕ)
        × (named table number ≡ Some name)
        × (length text.old < length name) × (size.new ≡ length name) }
    ensures short { result ≡ 2 → length text.old < 52 }
    ensures none { (result ≡ 6) ↔ (named table number ≡ None) }
    ensures kept { result ≢ 0 → text.new ≡ text.old }
    ensures size { result ≡ 6 → size.new ≡ size.old }
    ensures status { (result ≡ 0) ⊎ ((result ≡ 2) ⊎ (result ≡ 6)) }
{
    put_name(table, number, text, size)
}

/// Puts the line of a fault, without a line end: `<layer>: <Reason> block <b> at <pos> inner
/// <inner>`. It has 108 octets at most.
///
/// The status says whether it is done; else the text is unchanged: it has too little room, or the
/// fault has the number of no layer or of no reason.
#[unsafe(no_mangle)]
pub extern "C" fn opgp_fault_line(fault: &FaultRow, text: &mut [u8], size: &mut u64) -> u32
    ensures done { result ≡ 0 → (f : Fault) × (fault_of fault.now ≡ Some f)
        × IsFilled (fault_text f) text.old text.new × (size.new ≡ length (fault_text f)) }
    ensures room { result ≡ 2 → (f : Fault) × (fault_of fault.now ≡ Some f)
        × (length text.old < length (fault_text f)) × (size.new ≡ length (fault_text f)) }
    ensures short { result ≡ 2 → length text.old < 108 }
    ensures none { (result ≡ 6) ↔ (fault_of fault.now ≡ None) }
    ensures kept { result ≢ 0 → text.new ≡ text.old }
    ensures size { result ≡ 6 → size.new ≡ size.old }
    ensures status { (result ≡ 0) ⊎ ((result ≡ 2) ⊎ (result ≡ 6)) }
{
    put_fault_line(fault, text, size)
}

/// Reads the keyring of an input, armored or binary, and keeps it in the handle; what the handle
/// held before is let go. Where there is no keyring, the handle is unchanged.
#[unsafe(no_mangle)]
pub extern "C" fn opgp_ring_open(
    alloc: Global,
    input: &[u8],
    limits: &GivenLimits,
    ring: &mut Ring,
    fault: &mut FaultRow,
) -> u32
    // It holds the one keyring that the octets encode.
    ensures done { result ≡ 0 → (ring.new.is_open ≡ true)
        × Answers limits.now input.now (Ok ring.new.slot.held.keyring) }
    // Or this is the one fault that refuses them.
    ensures refused { result ≡ 1 → Refuses limits.now input.now fault.new }
    ensures limits { result ≡ 4 → MayBeGiven limits.now → ⊥ }
    ensures allowed { result ≢ 4 → MayBeGiven limits.now }
    ensures kept { result ≢ 0 → ring.new ≡ ring.old }
    ensures fault { result ≢ 1 → fault.new ≡ fault.old }
    ensures status { (result ≡ 0) ⊎ ((result ≡ 1) ⊎ ((result ≡ 3) ⊎ (result ≡ 4))) }
{
    ring_open(alloc, input, limits, ring, fault)
}

/// Reads the keyring of an input by a mode: 0 as [`opgp_ring_open`], 1 as armored text, 2 as
/// packets.
///
/// The statuses are those of [`opgp_ring_open`]; that of a limit is also that of any other number.
#[unsafe(no_mangle)]
pub extern "C" fn opgp_ring_open_mode(
    alloc: Global,
    input: &[u8],
    mode: u32,
    limits: &GivenLimits,
    ring: &mut Ring,
    fault: &mut FaultRow,
) -> u32
    ensures done { result ≡ 0 → (m : Mode) × (mode_by mode ≡ Some m) × (ring.new.is_open ≡ true)
        × AnswersBy m limits.now input.now (Ok ring.new.slot.held.keyring) }
    ensures refused { result ≡ 1 → (m : Mode) × (mode_by mode ≡ Some m)
        × RefusesBy m limits.now input.now fault.new }
    ensures limits { result ≡ 4 → (mode < 3) × MayBeGiven limits.now → ⊥ }
    ensures allowed { result ≢ 4 → (mode < 3) × MayBeGiven limits.now }
    ensures kept { result ≢ 0 → ring.new ≡ ring.old }
    ensures fault { result ≢ 1 → fault.new ≡ fault.old }
    ensures status { (result ≡ 0) ⊎ ((result ≡ 1) ⊎ ((result ≡ 3) ⊎ (result ≡ 4))) }
{
    ring_open_mode(alloc, input, mode, limits, ring, fault)
}

/// Lets go what a handle holds. The handle, and each copy of it, can't be used again.
#[unsafe(no_mangle)]
pub extern "C" fn opgp_ring_close(ring: Ring) {
    ring_close(ring);
}

/// Lets go what a handle holds, and leaves it closed.
#[unsafe(no_mangle)]
pub extern "C" fn opgp_ring_clear(alloc: Global, ring: &mut Ring)
    ensures { ring.new.is_open ≡ false }
{
    ring_clear(alloc, ring);
}

/// Fills the tables with the packets of a keyring, in order, and the octets of their bodies.
///
/// The status says whether it is done; else the tables are unchanged: a table has too little room,
/// out of memory, or the handle holds nothing. The sizes say how much room is wanted. The handle
/// holds what it held.
#[unsafe(no_mangle)]
pub extern "C" fn opgp_ring_packets(
    alloc: Global,
    ring: &mut Ring,
    rows: &mut [PacketRow],
    bytes: &mut [u8],
    sizes: &mut Sizes,
) -> u32
    ensures { PutsTables packet_rows packet_bytes ring.old ring.new rows.old rows.new bytes.old
        bytes.new sizes.new result }
{
    put_table(alloc, ring, rows, bytes, sizes)
}

/// Fills the tables with the keys of a keyring, in order, and the octets of their material.
///
/// The statuses are those of [`opgp_ring_packets`].
#[unsafe(no_mangle)]
pub extern "C" fn opgp_ring_keys(
    alloc: Global,
    ring: &mut Ring,
    rows: &mut [KeyRow],
    bytes: &mut [u8],
    sizes: &mut Sizes,
) -> u32
    ensures { PutsTables key_rows key_bytes ring.old ring.new rows.old rows.new bytes.old bytes.new
        sizes.new result }
{
    put_table(alloc, ring, rows, bytes, sizes)
}

/// Fills the tables with the signatures of a keyring, in the order of its report, and the octets
/// that their algorithms made.
///
/// The statuses are those of [`opgp_ring_packets`].
#[unsafe(no_mangle)]
pub extern "C" fn opgp_ring_jobs(
    alloc: Global,
    ring: &mut Ring,
    rows: &mut [JobRow],
    bytes: &mut [u8],
    sizes: &mut Sizes,
) -> u32
    ensures { PutsTables job_rows job_bytes ring.old ring.new rows.old rows.new bytes.old bytes.new
        sizes.new result }
{
    put_table(alloc, ring, rows, bytes, sizes)
}

/// Fills the tables with the subpackets of a keyring's signatures, those of each in the order of
/// the table of jobs, and of its hashed area first; and their data.
///
/// The statuses are those of [`opgp_ring_packets`].
#[unsafe(no_mangle)]
pub extern "C" fn opgp_ring_subpackets(
    alloc: Global,
    ring: &mut Ring,
    rows: &mut [SubpacketRow],
    bytes: &mut [u8],
    sizes: &mut Sizes,
) -> u32
    ensures { PutsTables subpacket_rows subpacket_bytes ring.old ring.new rows.old rows.new
        bytes.old bytes.new sizes.new result }
{
    put_table(alloc, ring, rows, bytes, sizes)
}

/// Puts the octets that the signature of a row hashes (RFC 9580, 5.2.4), by the row's number in the
/// table of jobs.
///
/// Beside the statuses of [`opgp_ring_packets`] there is one for a row that isn't there, or whose
/// signature isn't hashed.
#[unsafe(no_mangle)]
pub extern "C" fn opgp_ring_octets(
    alloc: Global,
    ring: &mut Ring,
    row: u64,
    octets: &mut [u8],
    size: &mut u64,
) -> u32
    ensures done { result ≡ 0 → (q : QuestionValue)
        × (question_in (slice_get (asked_of ring.old.slot.held.keyring) row) ≡ Some q)
        × IsFilled (hashed q) octets.old octets.new × (size.new ≡ length (hashed q)) }
    ensures room { result ≡ 2 → (q : QuestionValue)
        × (question_in (slice_get (asked_of ring.old.slot.held.keyring) row) ≡ Some q)
        × (length octets.old < length (hashed q)) × (size.new ≡ length (hashed q)) }
    ensures none { result ≡ 6
        → question_in (slice_get (asked_of ring.old.slot.held.keyring) row) ≡ None }
    ensures kept { result ≢ 0 → octets.new ≡ octets.old }
    ensures closed { (result ≡ 5) ↔ (ring.old.is_open ≡ false) }
    ensures ring { HoldsTheSame ring.old ring.new }
    ensures status { (result ≡ 0) ⊎ ((result ≡ 2) ⊎ ((result ≡ 3) ⊎ ((result ≡ 5)
        ⊎ (result ≡ 6)))) }
{
    ring_octets(alloc, ring, row, octets, size)
}

/// Fills the tables with what the signatures of some rows of the table of jobs hash (RFC 9580,
/// 5.2.4): of at most so many rows, from the first one on, as many as hash no more than `most`
/// octets together; a row for each signature that is hashed, and the octets.
///
/// The statuses are those of [`opgp_ring_packets`].
#[unsafe(no_mangle)]
pub extern "C" fn opgp_ring_hashed(
    alloc: Global,
    ring: &mut Ring,
    first: u64,
    count: u64,
    most: u64,
    rows: &mut [HashedRow],
    bytes: &mut [u8],
    sizes: &mut Sizes,
) -> u32
    ensures { PutsTables (hashed_rows first count most) (hashed_bytes first count most) ring.old
        ring.new rows.old rows.new bytes.old bytes.new sizes.new result }
{
    let window = Window { first, count, most };
    put_hashed(alloc, ring, window, rows, bytes, sizes)
}

/// Puts how many octets of the input of a keyring lie outside of its armored blocks and were passed
/// over, if some of them are in no text; else 0, as for binary packets, and for a keyring that
/// another call made.
///
/// The status says whether it is done; else the count is unchanged: the handle holds nothing.
#[unsafe(no_mangle)]
pub extern "C" fn opgp_ring_skipped(alloc: Global, ring: &mut Ring, count: &mut u64) -> u32
    ensures done { result ≡ 0 → count.new ≡ ring.old.slot.held.skipped }
    ensures kept { result ≢ 0 → count.new ≡ count.old }
    ensures closed { (result ≡ 5) ↔ (ring.old.is_open ≡ false) }
    ensures ring { HoldsTheSame ring.old ring.new }
    ensures status { (result ≡ 0) ⊎ (result ≡ 5) }
{
    ring_skipped(alloc, ring, count)
}

/// Puts the packets of a keyring, octet for octet as they were read: bare, or as one block of armor
/// if `armor` isn't 0.
///
/// The statuses are those of [`opgp_ring_packets`].
#[unsafe(no_mangle)]
pub extern "C" fn opgp_ring_write(
    alloc: Global,
    ring: &mut Ring,
    armor: u32,
    text: &mut [u8],
    size: &mut u64,
) -> u32
    ensures done { result ≡ 0 → IsFilled
        (packets_text (out_of armor) (flat ring.old.slot.held.keyring)) text.old text.new }
    ensures room { result ≡ 2 → length text.old
        < length (packets_text (out_of armor) (flat ring.old.slot.held.keyring)) }
    ensures kept { result ≢ 0 → text.new ≡ text.old }
    ensures size { (result ≡ 0) ⊎ (result ≡ 2) → size.new
        ≡ length (packets_text (out_of armor) (flat ring.old.slot.held.keyring)) }
    ensures closed { (result ≡ 5) ↔ (ring.old.is_open ≡ false) }
    ensures ring { HoldsTheSame ring.old ring.new }
    ensures status { (result ≡ 0) ⊎ ((result ≡ 2) ⊎ ((result ≡ 3) ⊎ (result ≡ 5))) }
{
    ring_write(alloc, ring, armor, text, size)
}

/// Keeps a copy of a keyring, with each packet in the current format and its shortest length
/// (RFC 9580, 4.2.1), in another handle; what that held before is let go.
///
/// The status says whether it is done; else the other handle is unchanged: out of memory, or the
/// handle holds nothing. The handle holds what it held.
#[unsafe(no_mangle)]
pub extern "C" fn opgp_ring_normalise(alloc: Global, ring: &mut Ring, into: &mut Ring) -> u32
    ensures { KeepsMade normal_of ring.old ring.new into.old into.new result }
{
    keep_made(alloc, Making::Normal, ring, into)
}

/// Keeps a keyring merged: certificates of the same primary key become one, and equal packets of a
/// place appear once (RFC 9580, 10.1).
///
/// The handles and the statuses are those of [`opgp_ring_normalise`].
#[unsafe(no_mangle)]
pub extern "C" fn opgp_ring_merge(alloc: Global, ring: &mut Ring, into: &mut Ring) -> u32
    ensures { KeepsMade merged_of ring.old ring.new into.old into.new result }
{
    keep_made(alloc, Making::Merged, ring, into)
}

/// Keeps the chosen parts of each certificate, in their order and as they are framed: of the
/// signatures only those that name their certificate's primary key as the issuer, if
/// `own_signatures` isn't 0; no user attributes (RFC 9580, 5.12), if `no_attributes` isn't 0; and
/// of the user IDs (5.11) those of these numbers, counted from 0 in each certificate, or all where
/// no number is given. What precedes the first certificate stays.
///
/// The handles and the statuses are those of [`opgp_ring_normalise`].
#[unsafe(no_mangle)]
pub extern "C" fn opgp_ring_choose(
    alloc: Global,
    ring: &mut Ring,
    own_signatures: u32,
    no_attributes: u32,
    user_ids: &[u64],
    into: &mut Ring,
) -> u32
    ensures { (choice : Choice) × IsChoice own_signatures no_attributes user_ids.now choice
        × KeepsMade (chosen_keyring choice) ring.old ring.new into.old into.new result }
{
    let choice = Choice {
        own_signatures: own_signatures != 0,
        no_attributes: no_attributes != 0,
        user_ids,
    };
    keep_chosen(alloc, choice, ring, into)
}

/// Keeps the certificates that are picked, in their order, as a keyring: the one of number n,
/// counted from 0, if `picked` has a number other than 0 in place n. What precedes the first
/// certificate is left out.
///
/// The handles and the statuses are those of [`opgp_ring_normalise`].
#[unsafe(no_mangle)]
pub extern "C" fn opgp_ring_pick(
    alloc: Global,
    ring: &mut Ring,
    picked: &[u8],
    into: &mut Ring,
) -> u32
    ensures { KeepsMade (picked_keyring picked.now) ring.old ring.new into.old into.new result }
{
    keep_picked(alloc, picked, ring, into)
}

/// Keeps the certificate of this number, counted from 0, as a keyring.
///
/// Beside the handles and the statuses of [`opgp_ring_normalise`] there is a status for a number
/// of which there is no certificate.
#[unsafe(no_mangle)]
pub extern "C" fn opgp_ring_certificate(
    alloc: Global,
    ring: &mut Ring,
    number: u64,
    into: &mut Ring,
) -> u32
    ensures done { result ≡ 0 → (into.new.is_open ≡ true)
        × (nth_of ring.old.slot.held.keyring number ≡ Some into.new.slot.held.keyring) }
    ensures none { result ≡ 6 → nth_of ring.old.slot.held.keyring number ≡ None }
    ensures kept { result ≢ 0 → into.new ≡ into.old }
    ensures closed { (result ≡ 5) ↔ (ring.old.is_open ≡ false) }
    ensures ring { HoldsTheSame ring.old ring.new }
    ensures status { (result ≡ 0) ⊎ ((result ≡ 3) ⊎ ((result ≡ 5) ⊎ (result ≡ 6))) }
{
    ring_certificate(alloc, ring, number, into)
}

/// Keeps a keyring of the packets of two, those of the other behind those of the first.
///
/// The statuses are those of [`opgp_ring_normalise`]. Both handles hold what they held.
#[unsafe(no_mangle)]
pub extern "C" fn opgp_ring_join(
    alloc: Global,
    ring: &mut Ring,
    other: &mut Ring,
    into: &mut Ring,
) -> u32
    ensures done { result ≡ 0 → (into.new.is_open ≡ true)
        × (flat into.new.slot.held.keyring
        ≡ flat ring.old.slot.held.keyring ++ flat other.old.slot.held.keyring) }
    ensures open { result ≡ 0 → (ring.old.is_open ≡ true) × (other.old.is_open ≡ true) }
    ensures kept { result ≢ 0 → into.new ≡ into.old }
    ensures closed { result ≡ 5 → (ring.old.is_open ≡ false) ⊎ (other.old.is_open ≡ false) }
    ensures first { ring.old.is_open ≡ false → result ≡ 5 }
    ensures ring { HoldsTheSame ring.old ring.new }
    ensures other { HoldsTheSame other.old other.new }
    ensures status { (result ≡ 0) ⊎ ((result ≡ 3) ⊎ (result ≡ 5)) }
{
    ring_join(alloc, ring, other, into)
}

/// Begins to read a keyring, armored or binary, that comes in pieces; what the handle held before
/// is let go.
///
/// The status says whether it is done; else the handle is unchanged: a limit is out of its range,
/// or out of memory.
#[unsafe(no_mangle)]
pub extern "C" fn opgp_reader_open(alloc: Global, limits: &GivenLimits, reader: &mut Reader) -> u32
    ensures done { result ≡ 0 → (l : Limits) × AreThese l limits.now × (reader.new.is_open ≡ true)
        × IsGoing (begun l) reader.new.slot.held }
    ensures limits { result ≡ 4 → MayBeGiven limits.now → ⊥ }
    ensures allowed { result ≢ 4 → MayBeGiven limits.now }
    ensures kept { result ≢ 0 → reader.new ≡ reader.old }
    ensures status { (result ≡ 0) ⊎ ((result ≡ 3) ⊎ (result ≡ 4)) }
{
    reader_open(alloc, limits, reader)
}

/// Takes the next piece of the input. The conditions are that the handle was used so, and that
/// fewer than 2^63 octets are given in all.
///
/// The status says whether it is done; else the piece isn't taken: the input had ended, which
/// changes nothing, or memory ran out, which loses the reading, or the handle holds nothing.
#[unsafe(no_mangle)]
pub extern "C" fn opgp_reader_push(alloc: Global, reader: &mut Reader, piece: &[u8]) -> u32
    ghost so_far: { Use }
    requires used { Holds so_far reader.old }
    requires room { length so_far.input + length piece.now < 2 ^ 63 }
    ensures done { result ≡ 0 → (reader.new.is_open ≡ true)
        × IsGoing (given so_far piece.now) reader.new.slot.held }
    ensures ended { result ≡ 7 → HasEnded so_far reader.old.slot.held
        × (reader.new.slot.held ≡ reader.old.slot.held) }
    ensures lost { result ≡ 3 → reader.new.slot.held ≡ Lost }
    ensures before { reader.old.is_open ≡ true → reader.old.slot.held ≡ Lost → result ≡ 3 }
    ensures behind { reader.old.is_open ≡ true → HasEnded so_far reader.old.slot.held → result ≡ 7 }
    ensures open { reader.new.is_open ≡ reader.old.is_open }
    ensures kept { result ≢ 0 → Holds so_far reader.new }
    ensures closed { (result ≡ 5) ↔ (reader.old.is_open ≡ false) }
    ensures status { (result ≡ 0) ⊎ ((result ≡ 3) ⊎ ((result ≡ 5) ⊎ (result ≡ 7))) }
{
    reader_push(alloc, reader, piece)
}

/// Keeps the next part of the keyring in another handle, which lets go what it held: the packets
/// before the first certificate, or a certificate, as a keyring of its own. A part can be taken as
/// soon as its last packet is known to be the last. The condition is that the handle was used so.
///
/// The status says whether it is done; else the other handle is unchanged: no part is complete that
/// wasn't taken, out of memory, which loses the reading, or the handle holds nothing.
#[unsafe(no_mangle)]
pub extern "C" fn opgp_reader_take(alloc: Global, reader: &mut Reader, into: &mut Ring) -> u32
    ghost so_far: { Use }
    requires { Holds so_far reader.old }
    ensures done { result ≡ 0 → (part : PartValue) × HoldsPart into.new part
        × (waiting_in reader.old.slot.held ≡ part ∷ waiting_in reader.new.slot.held)
        × Holds (taking so_far (part ∷ [])) reader.new }
    ensures stays { (result ≡ 0) ⊎ (result ≡ 6) → (reader.new.is_open ≡ true)
        × StaysWhat reader.old.slot.held reader.new.slot.held }
    ensures none { result ≡ 6 → waiting_in reader.old.slot.held ≡ [] }
    ensures lost { result ≡ 3 → reader.new.slot.held ≡ Lost }
    ensures before { reader.old.is_open ≡ true → reader.old.slot.held ≡ Lost → result ≡ 3 }
    ensures empty { reader.old.is_open ≡ true → waiting_in reader.old.slot.held ≡ []
        → (result ≡ 6) ⊎ (reader.old.slot.held ≡ Lost) }
    ensures open { reader.new.is_open ≡ reader.old.is_open }
    ensures same { result ≢ 0 → Holds so_far reader.new }
    ensures kept { result ≢ 0 → into.new ≡ into.old }
    ensures closed { (result ≡ 5) ↔ (reader.old.is_open ≡ false) }
    ensures status { (result ≡ 0) ⊎ ((result ≡ 3) ⊎ ((result ≡ 5) ⊎ (result ≡ 6))) }
{
    reader_take(alloc, reader, into)
}

/// Ends the input. The parts that weren't taken can be taken then. The condition is that the handle
/// was used so.
///
/// The status says whether the input is a keyring, whose parts are those that were taken and those
/// that wait; or that it is refused, for the fault of the lowest layer that refuses it; out of
/// memory, which loses the reading; or the handle holds nothing. Of an input that has ended it says
/// the same again.
#[unsafe(no_mangle)]
pub extern "C" fn opgp_reader_end(alloc: Global, reader: &mut Reader, fault: &mut FaultRow) -> u32
    ghost so_far: { Use }
    requires { Holds so_far reader.old }
    ensures done { result ≡ 0 → (reader.new.is_open ≡ true)
        × IsEnded so_far reader.new.slot.held }
    ensures refused { result ≡ 1 → (f : Fault) × (reader.new.is_open ≡ true)
        × IsRefused so_far reader.new.slot.held f × (fault.new ≡ fault_row f) }
    ensures fault { result ≢ 1 → fault.new ≡ fault.old }
    ensures again { reader.old.is_open ≡ true → HasEnded so_far reader.old.slot.held
        → reader.new.slot.held ≡ reader.old.slot.held }
    ensures lost { result ≡ 3 → reader.new.slot.held ≡ Lost }
    ensures before { reader.old.is_open ≡ true → reader.old.slot.held ≡ Lost → result ≡ 3 }
    ensures open { reader.new.is_open ≡ reader.old.is_open }
    ensures kept { Holds so_far reader.new }
    ensures closed { (result ≡ 5) ↔ (reader.old.is_open ≡ false) }
    ensures status { (result ≡ 0) ⊎ ((result ≡ 1) ⊎ ((result ≡ 3) ⊎ (result ≡ 5))) }
{
    reader_end(alloc, reader, fault)
}

/// Lets go what a handle holds. The handle, and each copy of it, can't be used again.
#[unsafe(no_mangle)]
pub extern "C" fn opgp_reader_close(reader: Reader) {
    reader_close(reader);
}

/// Lets go what a handle holds, and leaves it closed.
#[unsafe(no_mangle)]
pub extern "C" fn opgp_reader_clear(alloc: Global, reader: &mut Reader)
    ensures { reader.new.is_open ≡ false }
{
    reader_clear(alloc, reader);
}
