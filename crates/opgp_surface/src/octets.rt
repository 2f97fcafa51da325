//! The surface of `opgp_octets`.

ghost use Rattle.opgp_octets.specs.PacketLen.{PacketLenFits};
ghost use Rattle.opgp_octets.specs.SubLen.{SubLenFits};

use opgp_octets::{
    BodyFault, Fault, Layer, Limits, Mpi, MpiFault, MpiView, OutOfMemory, PacketLen, ParseFault,
    PushFault, Reason, SubLen, fault_line, read_len, read_sub_len, shortest, write_len,
    write_sub_len,
};
use std::alloc::Global;

fn limits(line: u64, body: u64, cert: u64, input: u64, pieces: u64) -> Option<Limits> {
    Limits::new(line, body, cert, input, pieces)
}

fn numbers() -> (u64, u64, u64, u64, u64) {
    let limits = Limits::usual();
    (
        limits.line(),
        limits.body(),
        limits.cert(),
        limits.input(),
        limits.pieces(),
    )
}

fn lengths(o: &[u8]) -> (Option<(PacketLen, usize)>, Option<(SubLen, usize)>) {
    (read_len(o), read_sub_len(o))
}

fn packet_len(len: PacketLen) -> u32 {
    match len {
        PacketLen::One(n) => n as u32,
        PacketLen::Two(n) => n as u32,
        PacketLen::Five(n) => n,
        PacketLen::Partial(n) => n as u32,
    }
}

fn sub_len(len: SubLen) -> u32 {
    match len {
        SubLen::One(n) => n as u32,
        SubLen::Two(n) => n as u32,
        SubLen::Five(n) => n,
    }
}

fn fitting(packet: PacketLen, sub: SubLen) -> bool {
    packet.fits() && sub.fits()
}

fn put_len(len: &PacketLen, out: &mut Vec<u8>) -> Result<(), OutOfMemory>
    requires { PacketLenFits len.now }
{
    write_len(len, out)
}

fn put_sub_len(len: &SubLen, out: &mut Vec<u8>) -> Result<(), OutOfMemory>
    requires { SubLenFits len.now }
{
    write_sub_len(len, out)
}

fn fewest(n: u32) -> PacketLen {
    shortest(n)
}

fn integer(alloc: Global, o: &[u8], strict: bool) -> Result<(Mpi, usize), MpiFault> {
    Mpi::read(alloc, o, strict)
}

fn of_integer(integer: &Mpi) -> (u16, &[u8]) {
    (integer.bits(), integer.octets())
}

fn integer_view(o: &[u8], strict: bool) -> Result<(MpiView<'_>, usize), Reason> {
    MpiView::read(o, strict)
}

fn of_view<'a>(integer: MpiView<'a>) -> (u16, &'a [u8]) {
    (integer.bits(), integer.octets())
}

fn same_integer(alloc: Global, integer: &Mpi) -> Result<Mpi, OutOfMemory> {
    integer.copy(alloc)
}

fn line(alloc: Global, fault: &Fault) -> Result<String, OutOfMemory> {
    fault_line(alloc, fault)
}

fn fault(layer: Layer, reason: Reason) -> Fault {
    Fault {
        layer,
        reason,
        block: 0,
        pos: 0,
        inner: 0,
    }
}

fn body_fault(reason: Reason) -> BodyFault {
    BodyFault { reason, inner: 0 }
}

fn is_memory(parsed: &ParseFault, pushed: PushFault) -> bool {
    let is_parsed = match parsed {
        ParseFault::Body(_) => false,
        ParseFault::Memory => true,
    };
    match pushed {
        PushFault::Memory => is_parsed,
        PushFault::Spent => false,
    }
}

fn layer_number(layer: Layer) -> u8 {
    match layer {
        Layer::Input => 0,
        Layer::Armor => 1,
        Layer::Framing => 2,
        Layer::Body => 3,
        Layer::Composition => 4,
        _ => 255,
    }
}
