//! How often a verifier is called.

ghost use Rattle.opgp_report.specs.declared.verifier.Verdict.TheVariants as verdict;

use byteorder::{BigEndian, ByteOrder};
use opgp_codec::{Answer, Mode, Watched, read_keyring};
use opgp_hash::{Digest, digest};
use opgp_keyring::Keyring;
use opgp_octets::Limits;
use opgp_report::{Finding, Job, Row, Verdict, Verifier, check, question_at};
use std::alloc::Global;
use std::cell::Cell;
use std::test::Fail;

// A primary key, which the packets below follow; its creation time is written into it.
const KEY: [u8; 53] =
    *b"\xC6\x33\x04\x00\x00\x00\x00\x16\x09\x2B\x06\x01\x04\x01\xDA\x47\x0F\x01\x01\x07\x40\
      \x3F\x09\x89\x94\xBD\xD9\x16\xED\x40\x53\x19\x79\x34\xE4\xA8\x7C\x80\x73\x3A\x12\x80\
      \xD6\x2F\x80\x10\x99\x2E\x43\xEE\x3B\x24\x06";

const PACKETS: [&[u8]; 13] = [
    b"\xC2\x0E\x04\x1F\x16\x08\x00\x00\x00\x00\xAB\x00\x00\x00\x00\x00",
    b"\xCD\x01\x61",
    b"\xC2\x0E\x04\x13\x16\x08\x00\x00\x00\x00\xAB\x01\x00\x00\x00\x00",
    // The same once more.
    b"\xC2\x0E\x04\x13\x16\x08\x00\x00\x00\x00\xAB\x01\x00\x00\x00\x00",
    b"\xE8\x00",
    // A type that isn't hashed here.
    b"\xC2\x0E\x04\x18\x16\x08\x00\x00\x00\x00\xAB\x02\x00\x00\x00\x00",
    b"\xD1\x03\x02\x64\x00",
    b"\xC2\x0E\x04\x10\x16\x0A\x00\x00\x00\x00\xAB\x03\x00\x00\x00\x00",
    b"\xCE\x33\x04\x00\x00\x00\x03\x16\x09\x2B\x06\x01\x04\x01\xDA\x47\x0F\x01\x01\x07\x40\
      \x3F\x09\x89\x94\xBD\xD9\x16\xED\x40\x53\x19\x79\x34\xE4\xA8\x7C\x80\x73\x3A\x12\x80\
      \xD6\x2F\x80\x10\x99\x2E\x43\xEE\x3B\x24\x06",
    // A binding that embeds 5, 6 and 7 in its hashed area, of which the last isn't hashed there, and 8 in
    // the other.
    b"\xC2\x4E\x04\x18\x16\x08\x00\x30\x0F\x20\x04\x19\x16\x08\x00\x00\x00\x00\xAB\x05\x00\
      \x00\x00\x00\x0F\x20\x04\x19\x16\x0A\x00\x00\x00\x00\xAB\x06\x00\x00\x00\x00\x0F\x20\
      \x04\x18\x16\x08\x00\x00\x00\x00\xAB\x07\x00\x00\x00\x00\x00\x10\x0F\x20\x04\x19\x16\
      \x09\x00\x00\x00\x00\xAB\x08\x00\x00\x00\x00\xAB\x04\x00\x00\x00\x00",
    b"\xC2\x0E\x04\x28\x16\x08\x00\x00\x00\x00\xAB\x09\x00\x00\x00\x00",
    b"\xCE\x33\x04\x00\x00\x00\x05\x16\x09\x2B\x06\x01\x04\x01\xDA\x47\x0F\x01\x01\x07\x40\
      \x3F\x09\x89\x94\xBD\xD9\x16\xED\x40\x53\x19\x79\x34\xE4\xA8\x7C\x80\x73\x3A\x12\x80\
      \xD6\x2F\x80\x10\x99\x2E\x43\xEE\x3B\x24\x06",
    // One that embeds 11 and 12.
    b"\xC2\x2E\x04\x18\x16\x08\x00\x10\x0F\x20\x04\x19\x16\x08\x00\x00\x00\x00\xAB\x0B\x00\
      \x00\x00\x00\x00\x10\x0F\x20\x04\x19\x16\x02\x00\x00\x00\x00\xAB\x0C\x00\x00\x00\x00\
      \xAB\x0A\x00\x00\x00\x00",
];

// The numbers of the signatures that are hashed, in the order of the rows.
const ASKING: [u8; 12] = [0, 1, 1, 3, 4, 5, 6, 8, 9, 10, 11, 12];

/// Says that each signature is good, and counts how often it was asked, and how often about another
/// one than was next.
#[derive(Drop)]
struct Counting {
    wanted: Vec<(u8, Digest)>,
    asked: Cell<usize>,
    others: Cell<usize>,
}

impl Counting {
    /// Whether a job is the one of this number.
    fn is_next(&self, at: usize, job: &Job<'_>) -> bool {
        let Some(wanted) = self.wanted.get(at) else {
            return false;
        };
        let (number, digest) = *wanted;
        let of_it = job.digest;
        match job.signature.left() {
            Some(left) => left[1] == number && of_it == digest,
            None => false,
        }
    }
}

impl Verifier for Counting {
    ghost says = { λ _ _. verdict.Good };

    fn verify(&self, job: &Job<'_>) -> Verdict {
        let at = self.asked.get();
        self.asked.set(at.saturating_add(1));
        if !self.is_next(at, job) {
            self.others.set(self.others.get().saturating_add(1));
        }
        Verdict::Good
    }
}

/// The primary key, made at this time.
fn key(created: u32) -> [u8; 53] {
    let mut octets = KEY;
    BigEndian::write_u32(&mut octets[3..], created);
    octets
}

/// The octets of two certificates with a signature of each kind that has a row. The left octets of
/// its signatures end in their numbers, from 0 in the order of the rows.
fn octets(alloc: Global) -> Result<Vec<u8>, Fail> {
    let mut octets = Vec::new(alloc);
    for created in [1, 2] {
        octets.extend_from_slice(&key(created))?;
        for packet in PACKETS {
            octets.extend_from_slice(packet)?;
        }
    }
    Ok(octets)
}

/// Their keyring.
fn keyring(alloc: Global) -> Result<Keyring, Fail> {
    let octets = octets(alloc)?;
    let mut source = Watched::new(octets.as_slice());
    match read_keyring(alloc, &mut source, Mode::Binary, &Limits::usual())? {
        Answer::Ring(ring) => Ok(ring),
        Answer::Refused(_) => Err("no keyring".into()),
    }
}

/// What is to be asked of a keyring.
fn wanted(alloc: Global, ring: &Keyring) -> Result<Vec<(u8, Digest)>, Fail> {
    let mut wanted = Vec::new(alloc);
    for row in 0..28 {
        if let (Some(question), Some(number)) = (
            question_at(ring, row),
            ASKING.get(wanted.len() % 12),
        ) {
            wanted.push((*number, digest(&question)))?;
        }
    }
    Ok(wanted)
}

/// Whether each row with a question has the verdict on it, and no other row has one.
fn are_answered(ring: &Keyring, rows: &[Row]) -> bool {
    for (number, row) in rows.iter().enumerate() {
        let is_right = match row.finding {
            Finding::Asked { verdict, .. } => verdict == Verdict::Good,
            Finding::NotAsked(_) => question_at(ring, number).is_none(),
        };
        if !is_right {
            return false;
        }
    }
    true
}

// A verifier is called once for each question, in the order of the rows, and never else: also if
// two questions are equal, and for what is embedded in either area. Its verdict is in the row.
#[test]
fn a_verifier_is_asked_once_for_each_question(rt: HostRuntime) -> Result<(), Fail> {
    let ring = keyring(rt.alloc())?;
    let verifier = Counting {
        wanted: wanted(rt.alloc(), &ring)?,
        asked: Cell::new(0),
        others: Cell::new(0),
    };
    let report = check(rt.alloc(), &ring, &verifier)?;
    assert_eq!(rt; (report.rows().len(), verifier.wanted.len()), (28, 24));
    assert_eq!(rt; (verifier.asked.get(), verifier.others.get()), (24, 0));
    assert!(rt; are_answered(&ring, report.rows()));
    Ok(())
}
