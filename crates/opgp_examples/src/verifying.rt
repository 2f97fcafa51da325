//! Signatures that another program found good.

ghost use Rattle.opgp_examples.specs.Table.{says_listed};

use anyhow::Result;
use opgp::codec::{Answer, Mode, Watched, read_keyring};
use opgp::octets::Limits;
use opgp::report::{Finding, Job, Place, Row, Verdict, Verifier, check};
use std::alloc::Global;
use std::io::Read;

/// A verifier that knows the digests that another program found good.
#[derive(Drop)]
struct Table {
    good: Vec<Vec<u8>>,
}

impl Table {
    /// The table of these digests in hexadecimal.
    fn of(alloc: Global, words: &[String]) -> Result<Table> {
        let mut good = Vec::new(alloc);
        for word in words {
            good.push(hex::decode(alloc, word.as_str())?)?;
        }
        Ok(Table { good })
    }
}

impl Verifier for Table {
    ghost says = { λ table job. says_listed table.good.items job };

    fn verify(&self, job: &Job<'_>) -> Verdict {
        for good in &self.good {
            if good.as_slice() == job.digest.octets() {
                return Verdict::Good;
            }
        }
        Verdict::Undecided
    }
}

/// A line for each signature of a keyring: its place, its digest, and whether that is among the
/// words.
pub(crate) fn verify<R: Read + Drop>(
    rt: &(impl Print + AllocGlobal),
    source: R,
    words: &[String],
) -> Result<()> {
    let table = Table::of(rt.alloc(), words)?;
    let mut source = Watched::new(source);
    let keyring = match read_keyring(rt.alloc(), &mut source, Mode::Auto, &Limits::usual())? {
        Answer::Ring(keyring) => keyring,
        Answer::Refused(fault) => return Err(fault.into()),
    };
    show_rows(rt, check(rt.alloc(), &keyring, &table)?.rows())
}

/// A line for each row of a report.
fn show_rows(rt: &impl Print, rows: &[Row]) -> Result<()> {
    for row in rows {
        show_place(rt, &row.place)?;
        match row.finding {
            Finding::Asked {
                digest,
                verdict: Verdict::Good,
                ..
            } => println!(rt; ": {digest} good")?,
            Finding::Asked { digest, .. } => println!(rt; ": {digest} unknown")?,
            Finding::NotAsked(why) => println!(rt; ": asks nothing, {why}")?,
        }
    }
    Ok(())
}

/// The place of a signature.
fn show_place(rt: &impl Print, place: &Place) -> Result<()> {
    let Place {
        certificate,
        component,
        hang,
        nested,
    } = *place;
    print!(rt; "certificate {certificate}")?;
    if let Some(component) = component {
        print!(rt; " component {component}")?;
    }
    print!(rt; " signature {hang}")?;
    if let Some(nested) = nested {
        print!(rt; " embedded {nested}")?;
    }
    Ok(())
}
