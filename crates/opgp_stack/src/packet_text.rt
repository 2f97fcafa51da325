//! What is written of a packet.

ghost use Rattle.std.specs.Prelude.{◌++◌, ℕ, List, OnOk};
ghost use Rattle.opgp_frame.specs.View.{viewed};
ghost use Rattle.opgp_codec.specs.Draft.{DraftHas};
ghost use Rattle.opgp_stack.specs.PacketText.{lines_of_packet};
ghost use Rattle.opgp_stack.specs.Showing.{packet_lines};
ghost use Rattle.opgp_stack.specs.Values.{valued_lines};

use crate::showing::add_packet;
use crate::valued::add_valued;
use opgp_codec::{Draft, Spool, Text};
use opgp_frame::PlacedView;
use opgp_io::{Output, Sink};
use opgp_octets::OutOfMemory;
use std::io;

/// What is written of each packet.
#[derive(Clone, Copy)]
pub(crate) enum PacketText {
    /// A line for the packet, and one for each subpacket of a signature.
    Plain,
    /// The same, with what each says.
    Valued,
}

impl PacketText {
    /// Adds its lines to a draft. Fails only when out of memory; nothing is known of the draft
    /// then.
    pub(crate) fn add<S: Spool + Drop>(
        self,
        draft: &mut Draft<S>,
        placed: PlacedView<'_>,
    ) -> Result<(), OutOfMemory>
        ensures { OnOk result ((given : List ℕ)
            → DraftHas S.serves S.tells S.holds S.has_failed draft.old given
            → DraftHas S.serves S.tells S.holds S.has_failed draft.new
            (given ++ lines_of_packet self (viewed placed.entry))) }
    {
        match self {
            PacketText::Plain => draft.add(PlainLines { placed }),
            PacketText::Valued => draft.add(ValuedLines { placed }),
        }
    }
}

/// The lines of a packet.
#[derive(Clone, Copy)]
struct PlainLines<'a> {
    placed: PlacedView<'a>,
}

impl Text for PlainLines<'_> {
    ghost octets = { λ text. packet_lines (viewed text.placed) };

    fn add<W: Sink>(self, output: &mut Output<'_, W>) -> io::Result<()> {
        add_packet(output, self.placed)
    }
}

/// The lines of a packet with what it says.
#[derive(Clone, Copy)]
struct ValuedLines<'a> {
    placed: PlacedView<'a>,
}

impl Text for ValuedLines<'_> {
    ghost octets = { λ text. valued_lines (viewed text.placed) };

    fn add<W: Sink>(self, output: &mut Output<'_, W>) -> io::Result<()> {
        add_valued(output, self.placed)
    }
}
