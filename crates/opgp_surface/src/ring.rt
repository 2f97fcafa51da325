//! The surface of `opgp_ring`.

ghost use Rattle.std.specs.Prelude.{◌≡◌, ◌^◌, ◌<◌, false};
ghost use Rattle.opgp_ring.specs.Block.{items_of};
ghost use Rattle.opgp_ring.specs.Fed.{is_ready};
ghost use Rattle.opgp_ring.specs.Signed.{end_pos};

use opgp_frame::{Packet, Placed};
use opgp_hash::{Digest, KeyId, Why};
use opgp_key::KeyView;
use opgp_octets::{Fault, Limits, OutOfMemory, PushFault};
use opgp_ring::{
    BlockOf, Certificate, Component, Composed, Composer, Finding, Hangs, Job, Keyring, Lead,
    LeftOctets, Member, Members, Place, Ready, Report, Row, SignedLiteral, Verdict, Verifier,
    check, check_bodies, compose, compose_signed, flatten, join, merge, normalise, nth,
};
use opgp_sig::SigView;
use std::alloc::Global;

fn block(block: u64, label_fits: bool, packets: Vec<Placed>) -> BlockOf {
    BlockOf {
        block,
        label_fits,
        packets,
    }
}

fn composed(alloc: Global, blocks: Vec<BlockOf>, limits: &Limits) -> Result<Composed, OutOfMemory> {
    compose(alloc, blocks, limits)
}

fn keyring(answer: Composed) -> Result<Keyring, Fault> {
    match answer {
        Composed::Ring(ring) => Ok(ring),
        Composed::Refused(fault) => Err(fault),
    }
}

fn signed(alloc: Global, blocks: Vec<BlockOf>) -> Result<Result<SignedLiteral, Fault>, OutOfMemory>
    requires { end_pos (items_of blocks.items) < 2 ^ 64 }
{
    compose_signed(alloc, blocks)
}

fn flat(literal: &SignedLiteral) -> &[Packet] {
    literal.flat()
}

fn first_fault(blocks: &[BlockOf]) -> Option<Fault> {
    check_bodies(blocks)
}

fn packets(alloc: Global, ring: &Keyring) -> Result<Vec<Packet>, OutOfMemory> {
    flatten(alloc, ring)
}

fn of_keyring(ring: &Keyring) -> (Members<'_>, &[Certificate]) {
    (ring.lead(), ring.certificates())
}

fn of_certificate(certificate: &Certificate) -> (Member<'_>, Hangs<'_>, Option<Component<'_>>) {
    let mut components = certificate.components();
    (
        certificate.primary(),
        certificate.hangs(),
        components.next(),
    )
}

fn of_component<'a>(component: Component<'a>) -> (Member<'a>, Hangs<'a>) {
    (component.head(), component.hangs())
}

fn own_lead(alloc: Global, lead: &Lead) -> Result<Lead, OutOfMemory> {
    lead.copy(alloc)
}

fn own_packet(alloc: Global, filler: Member<'_>) -> Result<Packet, OutOfMemory> {
    filler.packet(alloc)
}

fn composer(alloc: Global, limits: Limits) -> Composer {
    Composer::new(alloc, limits)
}

fn push(composer: &mut Composer, placed: Placed) -> Result<(), PushFault>
    requires { is_ready composer.old ≡ false }
{
    composer.push(placed)
}

fn take(composer: &mut Composer) -> Option<Ready> {
    if composer.ready() {
        composer.take()
    } else {
        None
    }
}

fn finish(composer: Composer) -> Result<Option<Ready>, Fault>
    requires { is_ready composer ≡ false }
{
    composer.finish()
}

fn is_lead(part: &Ready) -> bool {
    match part {
        Ready::Lead(_) => true,
        Ready::Certificate(_) => false,
    }
}

fn rewritten(ring: Keyring) -> Keyring {
    normalise(ring)
}

fn joined(first: Keyring, second: Keyring) -> Result<Keyring, OutOfMemory> {
    join(first, second)
}

fn one(alloc: Global, ring: &Keyring, n: usize) -> Result<Option<Keyring>, OutOfMemory> {
    nth(alloc, ring, n)
}

fn merged(ring: Keyring) -> Result<Keyring, OutOfMemory> {
    merge(ring)
}

fn report(alloc: Global, ring: &Keyring) -> Result<Report, OutOfMemory> {
    check(alloc, ring, &LeftOctets)
}

fn by<V: Verifier>(alloc: Global, ring: &Keyring, verifier: &V) -> Result<Report, OutOfMemory> {
    check(alloc, ring, verifier)
}

fn rows(report: &Report) -> &[Row] {
    report.rows()
}

fn of_job<'a>(job: &Job<'a>) -> (SigView<'a>, Digest, Option<KeyView<'a>>) {
    (job.signature, job.digest, job.signer)
}

fn number_of(verdict: Verdict) -> u8 {
    match verdict {
        Verdict::Good => 0,
        Verdict::Bad => 1,
        Verdict::Undecided => 2,
    }
}

fn place_of(row: &Row) -> (usize, Option<usize>, usize, Option<usize>) {
    let Place {
        certificate,
        component,
        hang,
        nested,
    } = row.place;
    (certificate, component, hang, nested)
}

fn found(row: &Row) -> Result<(u8, u8, Option<KeyId>, Digest, Verdict), Why> {
    match row.finding {
        Finding::Asked {
            kind,
            hash,
            signer,
            digest,
            verdict,
        } => Ok((kind, hash, signer, digest, verdict)),
        Finding::NotAsked(why) => Err(why),
    }
}
