//! The surface of `opgp_frame`.

ghost use Rattle.std.specs.Prelude.{◌≡◌, ◌+◌, ◌^◌, ◌<◌, false, length};
ghost use Rattle.opgp_frame.specs.Fed.{count_of, is_ready};

use opgp_frame::{Deframe, Form, LastForm, Packet, Pieces, Placed, reframe, write_packet};
use opgp_octets::{Fault, Limits, OutOfMemory, PushFault};
use std::alloc::Global;

fn form_number(form: &Form) -> u8 {
    match form {
        Form::OldOne => 0,
        Form::OldTwo => 1,
        Form::OldFour => 2,
        Form::NewOne => 3,
        Form::NewTwo => 4,
        Form::NewFive => 5,
        Form::Partial(pieces) => last_number(pieces.last()),
    }
}

fn last_number(last: LastForm) -> u8 {
    match last {
        LastForm::One => 6,
        LastForm::Two => 7,
        LastForm::Five => 8,
    }
}

fn pieces(exponents: Vec<u8>, last: LastForm) -> Option<Pieces> {
    Pieces::new(exponents, last)
}

fn exponents(pieces: &Pieces) -> &[u8] {
    pieces.exponents()
}

fn packet(form: Form, kind: u8, body: Vec<u8>) -> Option<Packet> {
    Packet::new(form, kind, body)
}

fn parts(packet: Packet) -> (Form, u8, Vec<u8>) {
    packet.into_parts()
}

fn of_packet(packet: &Packet) -> (&Form, u8, &[u8], u64) {
    (
        packet.form(),
        packet.kind(),
        packet.body(),
        packet.spelled_len(),
    )
}

fn placed(packet: Packet, block: u64, pos: u64) -> Placed {
    Placed { packet, block, pos }
}

fn reader(alloc: Global, block: u64, limits: Limits) -> Deframe {
    Deframe::new(alloc, block, limits)
}

fn state(reader: &Deframe) -> (bool, u64) {
    (reader.ready(), reader.given())
}

fn push(reader: &mut Deframe, piece: &[u8]) -> Result<usize, PushFault>
    requires free { is_ready reader.old ≡ false }
    requires room { count_of reader.old + length piece.now < 2 ^ 63 }
{
    reader.push(piece)
}

fn take(reader: &mut Deframe) -> Option<Placed> {
    reader.take()
}

fn finish(reader: Deframe) -> Result<(), Fault>
    requires { is_ready reader ≡ false }
{
    reader.finish()
}

fn write(packet: &Packet, out: &mut Vec<u8>) -> Result<(), OutOfMemory> {
    write_packet(packet, out)
}

fn current(packet: Packet) -> Packet {
    reframe(packet)
}
