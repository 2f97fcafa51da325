//! All blocks of a text at once.

ghost use Rattle.std.specs.Prelude.{◌≡◌, ◌+◌, ◌<◌, ◌≤◌, length, take, IfOk, OnOk, MatchResult};
ghost use Rattle.std.specs.List.{fold};
ghost use Rattle.opgp_armor.specs.Rules.{line_rule};
ghost use Rattle.opgp_armor.specs.Armored.{Armored, IsArmorFault};
ghost use Rattle.opgp_armor.specs.Blocks.{blocks_of_stored, built_of};
ghost use Rattle.opgp_armor.specs.Fed.{SaysTheSame};
ghost use Rattle.opgp_armor.specs.Events.{event_of, events_of, absorb, nothing_built};

use crate::block::Block;
use crate::event::ArmorEvent;
use crate::label::Label;
use crate::reader::Dearmor;
use opgp_octets::{Fault, Limits, OutOfMemory};
use std::alloc::{AllocError, Global};
use std::mem;

/// What the events of a text have built: the finished blocks, and the one that is open.
#[derive(Drop)]
pub(crate) struct Building {
    pub(crate) blocks: Vec<Block>,
    label: Label,
    headers: Vec<(Vec<u8>, Vec<u8>)>,
    octets: Vec<u8>,
}

impl Building {
    /// A text of which no event has come.
    pub(crate) fn new(alloc: Global) -> Building
        ensures { built_of result ≡ nothing_built }
    {
        Building {
            blocks: Vec::new(alloc),
            label: Label::Message,
            headers: Vec::new(alloc),
            octets: Vec::new(alloc),
        }
    }

    /// Ends the open block.
    fn end_block(&mut self, alloc: Global) -> Result<(), OutOfMemory>
        ensures { OnOk result
            (built_of self.new ≡ absorb (built_of self.old) (event_of ArmorEvent.End)) }
    {
        let headers = mem::replace(&mut self.headers, Vec::new(alloc));
        let octets = mem::replace(&mut self.octets, Vec::new(alloc));
        self.blocks.push(Block {
            label: self.label,
            headers,
            octets,
        })?;
        Ok(())
    }

    /// Takes one more event, and gives the reader its memory back.
    fn absorb(
        &mut self,
        alloc: Global,
        reader: &mut Dearmor,
        event: ArmorEvent,
    ) -> Result<(), OutOfMemory>
        ensures built { OnOk result
            (built_of self.new ≡ absorb (built_of self.old) (event_of event)) }
        ensures reader { SaysTheSame reader.old reader.new }
    {
        match event {
            ArmorEvent::Begin(label) => {
                self.label = label;
                self.headers = Vec::new(alloc);
                self.octets = Vec::new(alloc);
            }
            ArmorEvent::Header(key, value) => {
                self.headers.push((key, value))?;
            }
            ArmorEvent::Octets(octets) => {
                self.octets.extend_from_slice(octets.as_slice())?;
                reader.reuse(octets);
            }
            ArmorEvent::End => {
                self.end_block(alloc)?;
            }
        }
        Ok(())
    }

    /// Takes one more event, if there is one, and gives the reader its memory back.
    pub(crate) fn absorb_some(
        &mut self,
        alloc: Global,
        reader: &mut Dearmor,
        event: Option<ArmorEvent>,
    ) -> Result<(), OutOfMemory>
        ensures built { OnOk result
            (built_of self.new ≡ fold absorb (built_of self.old) (events_of event)) }
        ensures reader { SaysTheSame reader.old reader.new }
    {
        match event {
            Some(event) => self.absorb(alloc, reader, event),
            None => Ok(()),
        }
    }
}

/// The blocks of an armored text (RFC 9580, 6.2), in order, or the fault of the text.
///
/// Fails only when out of memory.
pub fn dearmor(
    alloc: Global,
    text: &[u8],
    limits: &Limits,
) -> Result<Result<Vec<Block>, Fault>, OutOfMemory>
    ensures { IfOk result (λ answer. MatchResult answer
        (λ blocks. Armored (line_rule limits.now) text.now (blocks_of_stored blocks.items))
        (IsArmorFault (line_rule limits.now) text.now)) }
{
    let mut reader = Dearmor::new(alloc, *limits);
    let mut building = Building::new(alloc);
    let mut at = 0;
    'pieces: while at < text.len() {
        let Ok(n) = reader.push(&text[at..]) else {
            return Err(AllocError);
        };
        let event = reader.take();
        building.absorb_some(alloc, &mut reader, event)?;
        at += n;
    }
    let Ok(event) = reader.last() else {
        return Err(AllocError);
    };
    building.absorb_some(alloc, &mut reader, event)?;
    match reader.finish() {
        Ok(()) => Ok(Ok(building.blocks)),
        Err(fault) => Ok(Err(fault)),
    }
}
