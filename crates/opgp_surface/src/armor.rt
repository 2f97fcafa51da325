//! The surface of `opgp_armor`.

ghost use Rattle.std.specs.Prelude.{◌≡◌, ◌+◌, ◌^◌, ◌<◌, false, true, length};
ghost use Rattle.opgp_armor.specs.Fed.{count_of, has_ended, is_ready};
ghost use Rattle.opgp_armor.specs.Blocks.{headers_of};
ghost use Rattle.opgp_armor.specs.Written.{AreWritable};

use opgp_armor::{ArmorEvent, Block, Dearmor, Label, armor, dearmor};
use opgp_octets::{Fault, Limits, OutOfMemory, PushFault};
use std::alloc::Global;

fn label_number(label: Label) -> u8 {
    match label {
        Label::Message => 0,
        Label::PublicKeyBlock => 1,
        Label::PrivateKeyBlock => 2,
        Label::Signature => 3,
    }
}

fn event_number(event: &ArmorEvent) -> u8 {
    match event {
        ArmorEvent::Begin(label) => label_number(*label),
        ArmorEvent::Header(_, _) => 4,
        ArmorEvent::Octets(_) => 5,
        ArmorEvent::End => 6,
    }
}

fn block(label: Label, headers: Vec<(Vec<u8>, Vec<u8>)>, octets: Vec<u8>) -> Block {
    Block {
        label,
        headers,
        octets,
    }
}

fn reader(alloc: Global, limits: Limits) -> Dearmor {
    Dearmor::new(alloc, limits)
}

fn state(reader: &Dearmor) -> (bool, u64, bool) {
    (reader.ready(), reader.given(), reader.ended())
}

fn push(reader: &mut Dearmor, piece: &[u8]) -> Result<usize, PushFault>
    requires free { is_ready reader.old ≡ false }
    requires open { has_ended reader.old ≡ false }
    requires room { count_of reader.old + length piece.now < 2 ^ 63 }
{
    reader.push(piece)
}

fn take(reader: &mut Dearmor) -> Option<ArmorEvent> {
    reader.take()
}

fn last(reader: &mut Dearmor) -> Result<Option<ArmorEvent>, PushFault>
    requires free { is_ready reader.old ≡ false }
    requires open { has_ended reader.old ≡ false }
{
    reader.last()
}

fn finish(reader: Dearmor) -> Result<(), Fault>
    requires free { is_ready reader ≡ false }
    requires ended { has_ended reader ≡ true }
{
    reader.finish()
}

fn blocks(
    alloc: Global,
    text: &[u8],
    limits: &Limits,
) -> Result<Result<Vec<Block>, Fault>, OutOfMemory> {
    dearmor(alloc, text, limits)
}

fn text(
    alloc: Global,
    label: Label,
    headers: &[(Vec<u8>, Vec<u8>)],
    octets: &[u8],
) -> Result<Vec<u8>, OutOfMemory>
    requires { AreWritable (headers_of headers.now) }
{
    armor(alloc, label, headers, octets)
}
