//! The table of a keyring's jobs.

ghost use Rattle.std.specs.Prelude.{◌≡◌, ◌≤◌, ◌++◌, drop, length, map, Result, OnOk, OnErr};
ghost use Rattle.opgp_octets.specs.declared.fault.BodyFault.{BodyFault};
ghost use Rattle.opgp_packet.specs.SignatureBody.{SignatureValue};
ghost use Rattle.opgp_packet.specs.SigView.{sig_view_value};
ghost use Rattle.opgp_packet.specs.SubView.{sub_shown};
ghost use Rattle.opgp_packet.specs.Subs.{subs_to_come};
ghost use Rattle.opgp_hash.specs.CertificateHasher.{hasher_subject};
ghost use Rattle.opgp_report.specs.Asked.{IsMet, posed_in};
ghost use Rattle.opgp_report.specs.Left.{left_in};
ghost use Rattle.opgp_report.specs.IssuerName.{name_value};
ghost use Rattle.opgp_report.specs.KeyIndex.{prints_shown};
ghost use Rattle.opgp_tables.specs.Jobs.{algorithm_in, answer_to, bad_number, created_in};
ghost use Rattle.opgp_tables.specs.Jobs.{digest_answer, why_answer};
ghost use Rattle.opgp_tables.specs.Jobs.{hash_in, issuer_in, name_octets};
ghost use Rattle.opgp_tables.specs.Jobs.{job_bytes, job_rows, kind_in, octets_or_zeros, opaque_row};
ghost use Rattle.opgp_tables.specs.Jobs.{or_none, signature_parts, signature_row, version_in};
ghost use Rattle.opgp_tables.specs.Jobs.{prints_in, the_one, time_in, times_in, why_number};

use crate::job_filler::{JobFiller, NoRoom};
use crate::job_row::{Answered, JobRow, digest_padded};
use crate::key_row::NONE;
use crate::parts::signature_parts;
use crate::table_sizes::TableSizes;
use opgp_hash::{CertificateHasher, Digest, Fingerprint, KeyId, Why};
use opgp_keyring::Keyring;
use opgp_octets::{OutOfMemory, SubpacketKind};
use opgp_packet::{SigView, SubView, Subs};
use opgp_report::{
    IssuerName, Job, KeyIndex, LeftOctets, Met, Place, Posed, Verdict, Verifier, index_keys,
    issuer_named, signer, visit,
};
use std::alloc::Global;

fn why_number(why: Why) -> u8
    ensures { result ≡ why_number why }
{
    match why {
        Why::Opaque => 1,
        Why::Kind => 2,
        Why::Misplaced => 3,
        Why::Version => 4,
        Why::Hash => 5,
    }
}

fn bad_number(verdict: Verdict) -> u8
    ensures { result ≡ bad_number verdict }
{
    match verdict {
        Verdict::Good => 0,
        Verdict::Bad => 1,
        Verdict::Undecided => 0,
    }
}

pub(crate) fn or_none(number: Option<usize>) -> u64
    ensures { result ≡ or_none number }
{
    match number {
        Some(number) => number as u64,
        None => NONE,
    }
}

/// What a signature's algorithm made.
pub(crate) fn parts_of<'a>(view: SigView<'a>) -> [&'a [u8]; 2]
    ensures { map (λ o. o.now) result ≡ signature_parts (sig_view_value view.entry) }
{
    match view {
        SigView::Three(three) => signature_parts(three.material()),
        SigView::Four(four) => signature_parts(four.material()),
        SigView::Six(six) => signature_parts(six.material()),
        SigView::Other(_) => [&[], &[]],
    }
}

/// The numbers that a signature states.
#[derive(Clone, Copy)]
pub(crate) struct Stated {
    version: u8,
    pub(crate) kind: u8,
    algorithm: u8,
    hash: u8,
    left: [u8; 2],
}

/// The numbers that a signature states.
pub(crate) fn stated_in(view: SigView<'_>) -> Stated
    ensures version { result.version ≡ version_in (sig_view_value view.entry) }
    ensures kind { result.kind ≡ kind_in (sig_view_value view.entry) }
    ensures algorithm { result.algorithm ≡ algorithm_in (sig_view_value view.entry) }
    ensures hash { result.hash ≡ hash_in (sig_view_value view.entry) }
    ensures left { result.left ≡ octets_or_zeros (left_in (sig_view_value view.entry)) }
{
    match view {
        SigView::Three(three) => Stated {
            version: 3,
            kind: three.kind(),
            algorithm: three.algorithm(),
            hash: three.hash(),
            left: three.left(),
        },
        SigView::Four(four) => Stated {
            version: 4,
            kind: four.kind(),
            algorithm: four.algorithm(),
            hash: four.hash(),
            left: four.left(),
        },
        SigView::Six(six) => Stated {
            version: 6,
            kind: six.kind(),
            algorithm: six.algorithm(),
            hash: six.hash(),
            left: six.left(),
        },
        SigView::Other(_) => Stated {
            version: 0,
            kind: 0,
            algorithm: 0,
            hash: 0,
            left: [0; 2],
        },
    }
}

/// The creation time that a subpacket states, in seconds since 1970, if the kind is 2 and there are
/// 4 octets (RFC 9580, 5.2.3.11).
fn time_in(subpacket: SubView<'_>) -> Option<u32>
    ensures { result ≡ time_in (sub_shown subpacket.entry) }
{
    if subpacket.kind() != SubpacketKind::Created.number() {
        return None;
    }
    match subpacket.octets() {
        [a, b, c, d] => Some(u32::from_be_bytes([*a, *b, *c, *d])),
        _ => None,
    }
}

/// The one creation time in an area; `None` for none, and for several.
fn one_time(subpackets: Subs<'_>) -> Option<u32>
    ensures { result ≡ the_one (times_in (subs_to_come subpackets.entry)) }
{
    let mut found = None;
    for subpacket in subpackets {
        if let Some(time) = time_in(subpacket) {
            if found.is_some() {
                return None;
            }
            found = Some(time);
        }
    }
    found
}

/// When a signature says it was made, in seconds since 1970 (RFC 9580, 5.2.2, 5.2.3.11).
fn created_in(view: SigView<'_>) -> Option<u32>
    ensures { result ≡ created_in (sig_view_value view.entry) }
{
    match view {
        SigView::Three(three) => Some(three.created()),
        SigView::Four(four) => one_time(four.hashed()),
        SigView::Six(six) => one_time(six.hashed()),
        SigView::Other(_) => None,
    }
}

/// By what a signature names its issuer's key (RFC 9580, 5.2.2, 5.2.3.12, 5.2.3.35).
pub(crate) fn name_in(view: SigView<'_>) -> IssuerName
    ensures { name_octets (name_value result) ≡ issuer_in (sig_view_value view.entry) }
{
    match view {
        SigView::Three(three) => IssuerName::Id(KeyId(three.issuer())),
        SigView::Four(_) | SigView::Six(_) | SigView::Other(_) => issuer_named(view),
    }
}

/// How many octets a fingerprint or a key ID has.
pub(crate) fn name_size(name: IssuerName) -> u8
    ensures { result ≡ length (name_octets (name_value name)) }
{
    match name {
        IssuerName::Print(Fingerprint::Four(_)) => 20,
        IssuerName::Print(Fingerprint::Six(_)) => 32,
        IssuerName::Id(_) => 8,
        IssuerName::Unnamed => 0,
    }
}

/// The row of embedded octets that aren't a signature.
pub(crate) fn opaque_row(place: Place, at: u64) -> JobRow
    ensures { result ≡ opaque_row place at }
{
    JobRow {
        certificate: place.certificate as u64,
        component: or_none(place.component),
        hang: place.hang as u64,
        nested: or_none(place.nested),
        signer: NONE,
        at,
        sizes: [0; 2],
        created: 0,
        why: 1,
        version: 0,
        kind: 0,
        algorithm: 0,
        hash: 0,
        left: [0; 2],
        is_bad: 0,
        digest_size: 0,
        is_dated: 0,
        issuer_size: 0,
        digest: [0; 64],
        reserved: 0,
    }
}

/// The digest of what a signature hashes, and whether it differs from the left octets.
pub(crate) fn digest_answer(signature: SigView<'_>, digest: Digest) -> Answered
    ensures { result ≡ digest_answer (sig_view_value signature.entry) digest }
{
    let job = Job {
        signature,
        digest,
        signer: None,
    };
    Answered {
        why: 0,
        is_bad: bad_number(LeftOctets.verify(&job)),
        digest_size: digest.octets().len() as u8,
        digest: digest_padded(digest),
    }
}

/// The number of the reason why a signature isn't hashed.
pub(crate) fn why_answer(number: u8) -> Answered
    ensures { result ≡ why_answer number }
{
    Answered {
        why: number,
        is_bad: 0,
        digest_size: 0,
        digest: [0; 64],
    }
}

/// The digest of a signature's question, and whether it differs from the left octets; or why it
/// isn't hashed.
pub(crate) fn answer_to<'a>(hasher: &mut CertificateHasher<'a>, met: &Met<'a>) -> Answered
    ensures subject { hasher_subject hasher.new ≡ hasher_subject hasher.old }
    ensures value { (read : Result SignatureValue BodyFault) → IsMet met.now.signature read
        → result ≡ answer_to (posed_in met.now.site (hasher_subject hasher.old) read) }
{
    let posed = met.asked(hasher);
    match posed {
        Posed::Question(signature, question) => {
            digest_answer(signature, hasher.digest(&question))
        }
        Posed::Nothing(why) => why_answer(why_number(why)),
    }
}

/// The row of a signature whose octets stand here.
pub(crate) fn made_row(
    names: &KeyIndex,
    place: Place,
    at: u64,
    view: SigView<'_>,
    answer: Answered,
) -> JobRow
    ensures { result
        ≡ signature_row (prints_shown names.now) place at (sig_view_value view.entry) answer }
{
    let [first, second] = parts_of(view);
    let stated = stated_in(view);
    let left = stated.left;
    let digest = answer.digest;
    let created = created_in(view);
    JobRow {
        certificate: place.certificate as u64,
        component: or_none(place.component),
        hang: place.hang as u64,
        nested: or_none(place.nested),
        signer: or_none(signer(names, view)),
        at,
        sizes: [first.len() as u64, second.len() as u64],
        created: created.unwrap_or(0),
        why: answer.why,
        version: stated.version,
        kind: stated.kind,
        algorithm: stated.algorithm,
        hash: stated.hash,
        left,
        is_bad: answer.is_bad,
        digest_size: answer.digest_size,
        is_dated: u8::from(created.is_some()),
        issuer_size: name_size(name_in(view)),
        digest,
        reserved: 0,
    }
}

/// Fills the front of two tables with the jobs of a keyring's signatures, in the order of its
/// report, and the octets that they point into. The condition is that both have the room that
/// [`crate::job_sizes`] tells. Fails only when out of memory, and the tables are then unchanged.
pub fn fill_jobs(
    alloc: Global,
    keyring: &Keyring,
    rows: &mut [JobRow],
    bytes: &mut [u8],
) -> Result<(), OutOfMemory>
    requires rows { length (job_rows keyring.now) ≤ length rows.old }
    requires bytes { length (job_bytes keyring.now) ≤ length bytes.old }
    ensures rows { OnOk result
        (rows.new ≡ job_rows keyring.now ++ drop (length (job_rows keyring.now)) rows.old) }
    ensures bytes { OnOk result
        (bytes.new ≡ job_bytes keyring.now ++ drop (length (job_bytes keyring.now)) bytes.old) }
    ensures kept { OnErr result ((rows.new ≡ rows.old) × (bytes.new ≡ bytes.old)) }
{
    let names = index_keys(alloc, keyring)?;
    put_jobs(&names, keyring, rows, bytes);
    drop(names);
    Ok(())
}

/// Puts the jobs at the front of two tables that have the room.
fn put_jobs(names: &KeyIndex, keyring: &Keyring, rows: &mut [JobRow], bytes: &mut [u8])
    requires names { prints_shown names.now ≡ prints_in keyring.now }
    requires rows { length (job_rows keyring.now) ≤ length rows.old }
    requires bytes { length (job_bytes keyring.now) ≤ length bytes.old }
    ensures rows { rows.new
        ≡ job_rows keyring.now ++ drop (length (job_rows keyring.now)) rows.old }
    ensures bytes { bytes.new
        ≡ job_bytes keyring.now ++ drop (length (job_bytes keyring.now)) bytes.old }
{
    let mut filler = JobFiller {
        names,
        rows,
        bytes,
        here: TableSizes::NOTHING,
    };
    match visit(&mut filler, keyring) {
        Ok(()) => {}
        Err(NoRoom) => unreachable!(),
    }
}
