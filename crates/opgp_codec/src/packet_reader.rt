//! Reads the packets of an input in pieces, and keeps them until they are taken.

ghost use Rattle.std.specs.Prelude.{◌≡◌, ◌<◌, ◌≤◌, ◌+◌, ◌^◌, ◌++◌, [], ℕ, List, length, map, None};
ghost use Rattle.std.specs.Prelude.{OnOk, IfOk};
ghost use Rattle.opgp_octets.specs.declared.limits.Limits.{Limits};
ghost use Rattle.opgp_frame.specs.declared.packet.Placed.{Placed};
ghost use Rattle.opgp_keyring.specs.Composition.{Item, of_packet};
ghost use Rattle.opgp_codec.specs.Found.{IsFound};
ghost use Rattle.opgp_codec.specs.Items.{Fed, octets_of};
ghost use Rattle.opgp_codec.specs.PacketReader.{Ends, IsReading, IsSoFar, IsUsed, PacketUse, given};
ghost use Rattle.opgp_codec.specs.PacketReader.{handed, held_of, most_held, octets_given};
ghost use Rattle.opgp_codec.specs.PacketReader.{taken_count, taking, packets_in, shown_count};
ghost use Rattle.opgp_codec.specs.PacketReader.{unused, waits};
ghost use Rattle.opgp_codec.specs.declared.accepts.Accepts.{Accepts};
ghost use Rattle.opgp_codec.specs.declared.mode.Mode.{Mode};

use crate::accepts::Accepts;
use crate::incoming_packets::passes;
use crate::items::Items;
use crate::mode::Mode;
use crate::waiting::counted;
use crate::waiting_packets::WaitingPackets;
use opgp_armor::laws::a_block_has_no_more_octets_than_the_text;
use opgp_frame::Placed;
use opgp_octets::{Fault, Limits, Malformed, OutOfMemory};
use std::alloc::Global;

/// Reads the packets of an input (RFC 9580, 4) whose octets, armored or binary, come in pieces of
/// any size, and hands out each as soon as it is complete and its body was checked. An armored
/// block may have any label.
///
/// Between calls its readers hold at most `line + body + pieces + 32` octets of its limits. Beside
/// that there are the packets that wait to be taken, and memory that is used again. Whether the
/// input is packets is known only at its end: a fault may follow those that were handed out.
#[derive(Drop)]
pub struct PacketReader {
    items: Items,
    malformed: Malformed,
    fault: Option<Fault>,
    waiting: WaitingPackets,
    taken: u64,
}

impl PacketReader {
    /// A reader that was given nothing. Allocates nothing; pushes do, from `alloc`.
    pub fn new(alloc: Global, mode: Mode, limits: Limits) -> PacketReader
        ensures used { IsUsed (unused mode limits) result }
        ensures count { octets_given result ≡ 0 }
        ensures held { held_of result ≤ most_held limits }
        ensures going { IsReading limits result }
    {
        PacketReader {
            items: Items::new(alloc, mode, limits, Accepts::Any),
            malformed: limits.malformed(),
            fault: None,
            waiting: WaitingPackets::new(alloc),
            taken: 0,
        }
    }

    /// Takes a whole piece. The condition is that fewer than 2^63 octets are given in all.
    ///
    /// Fails only when out of memory; nothing is known of the reader then.
    pub fn push(&mut self, piece: &[u8]) -> Result<(), OutOfMemory>
        requires used { (so_far : PacketUse) × IsUsed so_far self.old }
        requires room { octets_given self.old + length piece.now < 2 ^ 63 }
        ensures used { OnOk result ((so_far : PacketUse) → IsUsed so_far self.old
            → IsUsed (given so_far piece.now) self.new) }
        ensures count { OnOk result
            (octets_given self.new ≡ octets_given self.old + length piece.now) }
        ensures held { OnOk result ((so_far : PacketUse) → IsUsed so_far self.old
            → held_of self.new ≤ most_held so_far.limits) }
        // So a loop keeps that it is used within its limits.
        ensures going { OnOk result ((limits : Limits)
            → IsReading limits self.old → IsReading limits self.new) }
    {
        let mut at = 0;
        'steps: while let Some(n) = self.items.step(&piece[at..])? {
            keep(
                &mut self.items,
                &piece[at..],
                self.malformed,
                &mut self.fault,
                &mut self.waiting,
            )?;
            at += n;
        }
        Ok(())
    }

    /// Takes the next packet, if one waits.
    pub fn take(&mut self) -> Option<Placed>
        ensures waits { waits self.old ≡ handed result ++ waits self.new }
        ensures none { result ≡ None → waits self.old ≡ [] }
        ensures used { (so_far : PacketUse) → IsUsed so_far self.old
            → IsUsed (taking so_far (handed result)) self.new }
        ensures count { octets_given self.new ≡ octets_given self.old }
        ensures held { held_of self.new ≡ held_of self.old }
        ensures going { (limits : Limits) → IsReading limits self.old → IsReading limits self.new }
    {
        let packet = self.waiting.take();
        self.taken = counted(self.taken, packet.is_some());
        packet
    }

    /// How many packets were taken, at most 2^64 - 1.
    pub fn taken(&self) -> u64
        ensures value { result ≡ taken_count self.now }
        ensures used { (so_far : PacketUse) → IsUsed so_far self.now
            → result ≡ shown_count so_far.taken }
    {
        self.taken
    }

    /// Ends the input: the packets that weren't taken, or the one fault of the lowest layer that
    /// refuses it: input, armor, framing, bodies.
    ///
    /// Fails only when out of memory.
    pub fn finish(self) -> Result<Result<WaitingPackets, Fault>, OutOfMemory>
        requires { (so_far : PacketUse) × IsUsed so_far self }
        ensures { IfOk result (λ answer. (so_far : PacketUse) → IsUsed so_far self
            → Ends so_far answer) }
    {
        let PacketReader {
            items,
            malformed: _,
            fault,
            waiting,
            taken: _,
        } = self;
        a_block_has_no_more_octets_than_the_text();
        let ended = items.finish()?;
        match ended {
            Ok(_opening) => match fault {
                None => Ok(Ok(waiting)),
                Some(fault) => Ok(Err(fault)),
            },
            Err(fault) => Ok(Err(fault)),
        }
    }
}

/// Keeps the packet that was found, where one was, unless its body has a fault or one came before
/// it.
fn keep(
    items: &mut Items,
    piece: &[u8],
    malformed: Malformed,
    fault: &mut Option<Fault>,
    waiting: &mut WaitingPackets,
) -> Result<(), OutOfMemory>
    requires { (packets : List Placed)
        × IsFound items.old.framer.found (octets_of items.old.front piece.now) packets }
    ensures kept { OnOk result ((packets taken : List Placed) (list : List Item)
        → IsFound items.old.framer.found (octets_of items.old.front piece.now) packets
        → IsSoFar malformed taken fault.old waiting.old list
        → IsSoFar malformed taken fault.new waiting.new (list ++ map of_packet packets)) }
    ensures fed { (accepts : Accepts) (mode : Mode) (limits : Limits) (input : List ℕ)
        (list : List Item) → Fed accepts mode limits items.old input list
        → Fed accepts mode limits items.new input list }
    ensures front { items.new.front ≡ items.old.front }
    ensures given { items.new.given ≡ items.old.given }
{
    if passes(items.packet(piece), malformed, fault) {
        add(items.own(piece)?, waiting)?;
        Ok(())
    } else {
        Ok(())
    }
}

/// Adds a packet to those that wait, where there is one.
fn add(packet: Option<Placed>, waiting: &mut WaitingPackets) -> Result<(), OutOfMemory>
    ensures { OnOk result (packets_in waiting.new ≡ packets_in waiting.old ++ handed packet) }
{
    match packet {
        Some(packet) => waiting.add(packet),
        None => Ok(()),
    }
}
