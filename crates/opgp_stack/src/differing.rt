//! What changed between two keyrings, line by line.

ghost use Rattle.std.specs.Prelude.{◌≡◌, ◌++◌, false, codes};
ghost use Rattle.std.specs.List.{flat_map};
ghost use Rattle.opgp_io.specs.Line.{word_text};
ghost use Rattle.opgp_io.specs.Output.{Extends, sink_of};
ghost use Rattle.opgp_state.specs.Report.{number_or_none};
ghost use Rattle.opgp_stack.specs.Differing.{OfDifference, changed_line, difference_lines};
ghost use Rattle.opgp_stack.specs.Differing.{octets_of, place_words, print_at};
ghost use Rattle.opgp_stack.specs.Running.{IsMade, Made, RunsOf};

use crate::run_fault::RunFault;
use crate::running::{After, done, end};
use crate::valued_listing::add_valued_line;
use opgp_codec::{Answer, EngineError, Mode, Text, read_keyring, write};
use opgp_difference::{Difference, PacketPlace, PlacedPacket, compare};
use opgp_hash::Fingerprint;
use opgp_io::{Output, Sink, Source, Word};
use opgp_keyring::Keyring;
use opgp_octets::Limits;
use opgp_report::print_of;
use std::alloc::Global;
use std::io;

/// A number, or `-` for none.
fn number_or_none(number: Option<usize>) -> Word<'static>
    ensures { word_text result ≡ number_or_none number }
{
    match number {
        Some(n) => Word::Decimal(n as u64),
        None => Word::Text(b"-"),
    }
}

/// The fingerprint of the certificate of this number, if there is one.
fn print_at(keyring: &Keyring, number: usize) -> Option<Fingerprint>
    ensures { result ≡ print_at keyring.now number }
{
    match keyring.certificates().get(number) {
        Some(certificate) => Some(print_of(&certificate.key())),
        None => None,
    }
}

/// A certificate's number in its keyring, and its fingerprint, which is hashed once.
#[derive(Clone, Copy)]
struct NumberedPrint<'a> {
    keyring: &'a Keyring,
    number: usize,
    print: Option<Fingerprint>,
    ghost is: { print ≡ print_at keyring.now number },
}

impl<'a> NumberedPrint<'a> {
    fn new(keyring: &'a Keyring, number: usize) -> NumberedPrint<'a>
        ensures keyring { result.keyring ≡ keyring.entry }
        ensures number { result.number ≡ number }
    {
        NumberedPrint {
            keyring,
            number,
            print: print_at(keyring, number),
        }
    }

    /// That of another certificate of the keyring, or the same.
    fn turned_to(self, number: usize) -> NumberedPrint<'a>
        ensures keyring { result.keyring ≡ self.entry.keyring }
        ensures number { result.number ≡ number }
    {
        if number == self.number {
            self
        } else {
            NumberedPrint::new(self.keyring, number)
        }
    }
}

/// Adds a word, a fingerprint, and a place.
fn add_words_of<'p, W: Sink>(
    output: &mut Output<'_, W>,
    word: &'p [u8],
    print: &'p [u8],
    place: PacketPlace,
) -> io::Result<()>
    requires { W.has_failed (sink_of output.old) ≡ false }
    ensures { Extends W.held W.has_failed output.old output.new result
        (place_words word.now print.now place) }
{
    output.add_words(&[
        Word::Text(word),
        Word::Hex(print),
        Word::Text(b" cert "),
        Word::Decimal(place.certificate as u64),
        Word::Text(b" part "),
        number_or_none(place.component),
        Word::Text(b" hang "),
        number_or_none(place.hang),
        Word::Text(b" : "),
    ])
}

/// The same, where the fingerprint may be none.
fn add_place<'p, W: Sink>(
    output: &mut Output<'_, W>,
    word: &'p [u8],
    print: &'p Option<Fingerprint>,
    place: PacketPlace,
) -> io::Result<()>
    requires { W.has_failed (sink_of output.old) ≡ false }
    ensures { Extends W.held W.has_failed output.old output.new result
        (place_words word.now (octets_of print.now) place) }
{
    match print {
        Some(print) => add_words_of(output, word, print.octets(), place),
        None => add_words_of(output, word, b"", place),
    }
}

/// Adds the line of a packet that is gone or new.
fn add_change<W: Sink>(
    output: &mut Output<'_, W>,
    word: &[u8],
    named: NumberedPrint<'_>,
    packet: &PlacedPacket<'_>,
) -> io::Result<()>
    requires sound { W.has_failed (sink_of output.old) ≡ false }
    requires named { named.number ≡ packet.now.place.certificate }
    ensures { Extends W.held W.has_failed output.old output.new result
        (changed_line word.now named.entry.keyring.now packet.now) }
{
    add_place(output, word, &named.print, packet.place())?;
    add_valued_line(output, packet.packet())
}

/// Adds the lines of packets that are gone or new.
fn add_changes<W: Sink>(
    output: &mut Output<'_, W>,
    word: &[u8],
    keyring: &Keyring,
    packets: &[PlacedPacket<'_>],
) -> io::Result<()>
    requires { W.has_failed (sink_of output.old) ≡ false }
    ensures { Extends W.held W.has_failed output.old output.new result
        (flat_map (changed_line word.now keyring.now) packets.now) }
{
    let mut named = NumberedPrint::new(keyring, 0);
    for packet in packets {
        named = named.turned_to(packet.place().certificate);
        add_change(output, word, named, packet)?;
    }
    Ok(())
}

/// A line for each packet that is gone or new.
#[derive(Clone, Copy)]
struct DifferenceText<'a, 'k> {
    old: &'k Keyring,
    new: &'k Keyring,
    difference: &'a Difference<'k>,
}

impl Text for DifferenceText<'_, '_> {
    ghost octets = { λ text. flat_map (changed_line (codes "gone ") text.old.now)
        text.difference.now.gone.items
        ++ flat_map (changed_line (codes "new ") text.new.now) text.difference.now.new.items };

    fn add<W: Sink>(self, output: &mut Output<'_, W>) -> io::Result<()> {
        add_changes(output, b"gone ", self.old, &self.difference.gone)?;
        add_changes(output, b"new ", self.new, &self.difference.new)
    }
}

/// Reads a keyring, and writes what changed from an old one, a line for each packet that is gone or
/// new, as [`compare`] tells them: the fingerprint of its certificate, its place, and its line as
/// [`Action::ListValues`] has it. The conditions are that neither the source nor the sink has
/// failed.
///
/// The errors are `Refused`, `Read`, `Memory`, and `Write`, after which the sink holds a prefix of
/// the lines. With any other nothing was written.
///
/// [`compare`]: opgp_difference::compare
/// [`Action::ListValues`]: crate::Action::ListValues
pub fn run_difference<R: Source, W: Sink>(
    alloc: Global,
    old: &Keyring,
    mode: Mode,
    limits: &Limits,
    reader: &mut R,
    writer: &mut W,
) -> Result<(), RunFault>
    requires reader { R.has_failed reader.old ≡ false }
    requires writer { W.has_failed writer.old ≡ false }
    ensures { RunsOf R.left R.has_failed (IsMade W.held W.has_failed) limits.now
        (OfDifference old.now mode limits.now) reader.old reader.new writer.old writer.new
        result }
{
    match read_keyring(alloc, reader, mode, limits) {
        Ok(Answer::Ring(keyring)) => {
            let ended = write_difference(alloc, old, &keyring, writer);
            done(ended, keyring, After::Frees)
        }
        Ok(Answer::Refused(fault)) => Err(RunFault::Refused(fault)),
        Err(error) => end(Err(error)),
    }
}

/// Writes what changed.
fn write_difference<'k, W: Sink>(
    alloc: Global,
    old: &'k Keyring,
    new: &'k Keyring,
    writer: &mut W,
) -> Result<(), RunFault>
    requires { W.has_failed writer.old ≡ false }
    ensures { IsMade W.held W.has_failed writer.old writer.new result
        (Made.Text (difference_lines old.now new.now)) }
{
    let compared = compare(alloc, old, new);
    match compared {
        Ok(difference) => {
            let text = DifferenceText {
                old,
                new,
                difference: &difference,
            };
            end(write(alloc, text, writer))
        }
        Err(_) => end(Err(EngineError::Memory)),
    }
}
