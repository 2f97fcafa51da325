//! The packets that come from a source, one after the other, each checked.

ghost use Rattle.std.specs.Prelude.{◌≡◌, ◌≢◌, ◌<◌, ◌++◌, [], ℕ, List, Option, false, true, map};
ghost use Rattle.std.specs.Prelude.{Err, IfOk, Ok, OnOk};
ghost use Rattle.opgp_octets.specs.declared.fault.Fault.{Fault};
ghost use Rattle.opgp_octets.specs.declared.limits.Limits.{Limits};
ghost use Rattle.opgp_frame.specs.declared.packet.Placed.{Placed};
ghost use Rattle.opgp_keyring.specs.Composition.{Item, of_packet, placed_in};
ghost use Rattle.opgp_codec.specs.Blocks.{viewed_in};
ghost use Rattle.opgp_codec.specs.Incoming.{IsLeftAlone, left_in};
ghost use Rattle.opgp_codec.specs.SoundPackets.{AreSoFar, passed_if};
ghost use Rattle.opgp_codec.specs.declared.mode.Mode.{Mode};
ghost use Rattle.opgp_codec.specs.declared.read_error.ReadError.TheVariants as read;

use crate::accepts::Accepts;
use crate::incoming::Incoming;
use crate::mode::Mode;
use crate::read_error::ReadError;
use opgp_armor::laws::a_block_has_no_more_octets_than_the_text;
use opgp_frame::PlacedView;
use opgp_io::Source;
use opgp_keyring::view_fault;
use opgp_octets::{Fault, Limits, Malformed, OutOfMemory};
use std::alloc::Global;

/// Reads the packets (RFC 9580, 4) of a source, and lends each as soon as it is complete and its
/// body was checked:
///
/// ```text
/// while packets.next(source)? {
///     .. packets.packet() ..
/// }
/// packets.finish()?;
/// ```
///
/// An armored block may have any label. No packet is kept. Whether the input is packets is known
/// only at its end: a fault may follow those that were lent.
#[derive(Drop)]
pub struct IncomingPackets {
    incoming: Incoming,
    malformed: Malformed,
    fault: Option<Fault>,
}

impl IncomingPackets {
    ghost use Rattle.opgp_codec.specs.IncomingPackets.{EndsAs, IsLent, IsOver, LentIf, PacketsCame};

    /// A reader to which nothing has come. Fails only when out of memory.
    pub fn new(alloc: Global, mode: Mode, limits: Limits) -> Result<IncomingPackets, OutOfMemory>
        ensures { IfOk result (λ p. (before : Option (List ℕ))
            → PacketsCame mode limits before before p []) }
    {
        let incoming = Incoming::new(alloc, mode, limits, Accepts::Any)?;
        Ok(IncomingPackets {
            incoming,
            malformed: limits.malformed(),
            fault: None,
        })
    }

    /// Reads on up to the next packet, if neither its body nor one before it has a fault; `packet`
    /// lends it. False: there is no more before the end, since the source has ended, or one octet
    /// past the limit `input` has come. The condition is that the source hasn't failed.
    ///
    /// Each read but the last brings at least one octet, and none is made once it has returned false.
    ///
    /// The errors are `Read`: the source has failed, and `Memory`. Nothing is known of the reader
    /// then.
    pub fn next<R: Source>(&mut self, source: &mut R) -> Result<bool, ReadError>
        requires sound { R.has_failed source.old ≡ false }
        requires came { (mode : Mode) × (limits : Limits) × (before : Option (List ℕ))
            × (packets : List Placed)
            × PacketsCame mode limits before (R.left source.old) self.old packets }
        ensures came { IfOk result (λ more. (found : List Placed) × LentIf more self.new found
            × ((mode : Mode) (limits : Limits) (before : Option (List ℕ)) (packets : List Placed)
            → PacketsCame mode limits before (R.left source.old) self.old packets
            → PacketsCame mode limits before (R.left source.new) self.new (packets ++ found))) }
        ensures over { result ≡ Ok false → IsOver self.new (R.left source.new) }
        ensures lessens { result ≡ Ok true → left_in self.new.incoming < left_in self.old.incoming }
        ensures last { result ≡ Ok false → self.new.incoming.ended ≡ true }
        ensures alone { IsLeftAlone self.old.incoming self.new.incoming source.old source.new }
        ensures sound { OnOk result (R.has_failed source.new ≡ false) }
        ensures read { result ≡ Err read.Read → R.has_failed source.new ≡ true }
        ensures memory { result ≡ Err read.Memory → R.has_failed source.new ≡ false }
        ensures other { (fault : Fault) → result ≡ Err (read.Refused fault) → ⊥ }
    {
        'steps: while self.incoming.step(source)? {
            // Behind a fault no packet is looked at.
            if self.fault.is_none()
                && passes(self.incoming.packet(), self.malformed, &mut self.fault)
            {
                return Ok(true);
            }
        }
        Ok(false)
    }

    /// The packet that `next` has found.
    pub fn packet(&self) -> Option<PlacedView<'_>>
        requires { (packets : List Placed) × IsLent self.now packets }
        ensures { (packets : List Placed) → IsLent self.now packets → viewed_in result ≡ packets }
    {
        self.incoming.packet()
    }

    /// Ends the input. The condition is that `next` has returned false.
    ///
    /// The errors are `Refused`: the one fault of the lowest layer that refuses the input: input,
    /// armor, framing, bodies; and `Memory`.
    pub fn finish(self) -> Result<(), ReadError>
        requires { (mode : Mode) × (limits : Limits) × (before now : Option (List ℕ))
            × (packets : List Placed) × PacketsCame mode limits before now self packets
            × IsOver self now }
        ensures { (mode : Mode) (limits : Limits) (before now : Option (List ℕ))
            (packets : List Placed) → PacketsCame mode limits before now self packets
            → IsOver self now → EndsAs mode limits before now packets result }
    {
        let IncomingPackets {
            incoming,
            malformed: _,
            fault,
        } = self;
        a_block_has_no_more_octets_than_the_text();
        match incoming.finish() {
            Ok(Ok(_opening)) => match fault {
                None => Ok(()),
                Some(fault) => Err(ReadError::Refused(fault)),
            },
            Ok(Err(fault)) => Err(ReadError::Refused(fault)),
            Err(_) => Err(ReadError::Memory),
        }
    }
}

/// Whether a packet was found, and neither its body nor one before it has a fault. The first fault
/// of a body is kept.
pub(crate) fn passes(
    packet: Option<PlacedView<'_>>,
    malformed: Malformed,
    fault: &mut Option<Fault>,
) -> bool
    ensures some { result ≡ true → viewed_in packet.entry ≢ [] }
    ensures so_far { (packets : List Placed) (list : List Item)
        → AreSoFar malformed (λ ps. ps ≡ packets) fault.old (placed_in list)
        → AreSoFar malformed (λ ps. ps ≡ packets ++ passed_if result (viewed_in packet.entry))
        fault.new (placed_in (list ++ map of_packet (viewed_in packet.entry))) }
{
    let Some(packet) = packet else {
        return false;
    };
    if fault.is_some() {
        return false;
    }
    match view_fault(packet, malformed) {
        Some(found) => {
            *fault = Some(found);
            false
        }
        None => true,
    }
}
