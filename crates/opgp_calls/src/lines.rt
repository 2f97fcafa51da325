//! Lines and texts.

use opgp_codec::{EngineError, Out, ReadError, Watched, write_certificates};
use opgp_explain::fields_of;
use opgp_hash::reopen;
use opgp_keyring::{BlockOf, Keyring};
use opgp_octets::{Fault, Layer, Limits, Reason};
use opgp_report::{LeftOctets, check};
use opgp_stack::{Action, Choice, KeyName, Mode, Task, Top, run, write_listing, write_shown};
use std::alloc::Global;

/// The certificates of a keyring, each on its own.
pub(crate) fn add_certificates(
    alloc: Global,
    ring: &Keyring,
    how: Out,
    out: &mut Vec<u8>,
) -> Option<()> {
    let mut sink = Watched::new(Vec::new(alloc));
    write_certificates(alloc, ring, how, &mut sink).ok()?;
    out.extend_from_slice(&sink.into_inner()).ok()
}

/// A line for each packet of a keyring.
pub(crate) fn add_listing(alloc: Global, ring: &Keyring, out: &mut Vec<u8>) -> Option<()> {
    let mut sink = Watched::new(Vec::new(alloc));
    write_listing(alloc, ring, &mut sink).ok()?;
    out.extend_from_slice(&sink.into_inner()).ok()
}

/// A line for each packet of blocks, and for each subpacket.
pub(crate) fn add_shown(alloc: Global, blocks: &[BlockOf], out: &mut Vec<u8>) -> Option<()> {
    let mut sink = Watched::new(Vec::new(alloc));
    write_shown(alloc, blocks, &mut sink).ok()?;
    out.extend_from_slice(&sink.into_inner()).ok()
}

/// How many rows a keyring's report has.
pub(crate) fn add_rows(alloc: Global, ring: &Keyring, out: &mut Vec<u8>) -> Option<()> {
    let report = check(alloc, ring, &LeftOctets).ok()?;
    out.extend_from_slice(&(report.rows().len() as u64).to_be_bytes())
        .ok()
}

/// The fields of hashed octets: where each is, its name and its section.
pub(crate) fn add_fields(alloc: Global, octets: &[u8], out: &mut Vec<u8>) -> Option<()> {
    let question = reopen(octets)?;
    for field in &fields_of(alloc, &question).ok()? {
        let (offset, length) = (field.offset, field.length);
        let (name, section) = (field.meaning.name(), field.meaning.section());
        let line = format!(in alloc; "{offset} {length} {name} {section}\n").ok()?;
        out.extend_from_slice(line.as_bytes()).ok()?;
    }
    Some(())
}

/// The texts of the engine's errors.
pub(crate) fn add_errors(alloc: Global, out: &mut Vec<u8>) -> Option<()> {
    for error in [EngineError::Read, EngineError::Write, EngineError::Memory] {
        let line = format!(in alloc; "{error}\n").ok()?;
        out.extend_from_slice(line.as_bytes()).ok()?;
    }
    let fault = Fault {
        layer: Layer::Framing,
        reason: Reason::Short,
        block: 1,
        pos: 2,
        inner: 3,
    };
    for error in [
        ReadError::Read,
        ReadError::Memory,
        ReadError::Refused(fault),
    ] {
        let line = format!(in alloc; "{error}\n").ok()?;
        out.extend_from_slice(line.as_bytes()).ok()?;
    }
    Some(())
}

const KEYS: &[KeyName] = &[KeyName::Id([0x8C, 0xFD, 0xE1, 0x21, 0x97, 0x96, 0x5A, 0x9A])];

const ACTIONS: [Action<'static>; 23] = [
    Action::Show,
    Action::ShowValues,
    Action::List,
    Action::ListValues,
    Action::Check,
    Action::CheckFingerprints,
    Action::CheckPlaces,
    Action::Octets {
        row: 0,
        top: Top::Ring,
    },
    Action::Explain {
        row: 0,
        top: Top::Ring,
    },
    Action::Octets {
        row: 0,
        top: Top::Literal,
    },
    Action::OctetsAll,
    Action::Write { out: Out::Armor },
    Action::Write { out: Out::Binary },
    Action::WriteChosen {
        out: Out::Binary,
        choice: Choice {
            own_signatures: true,
            no_attributes: true,
            user_ids: &[],
        },
    },
    Action::Normalise { out: Out::Armor },
    Action::Normalise { out: Out::Binary },
    Action::Split {
        out: Out::Armor,
        nth: None,
    },
    Action::Split {
        out: Out::Binary,
        nth: Some(0),
    },
    Action::SplitKeys {
        out: Out::Armor,
        keys: KEYS,
        except: false,
    },
    Action::SplitKeys {
        out: Out::Binary,
        keys: KEYS,
        except: true,
    },
    Action::Join {
        out: Out::Armor,
        merge: false,
    },
    Action::Join {
        out: Out::Binary,
        merge: false,
    },
    Action::Join {
        out: Out::Binary,
        merge: true,
    },
];

/// What a run writes whose action the first octet numbers, over the other octets.
pub(crate) fn add_run(alloc: Global, octets: &[u8], out: &mut Vec<u8>) -> Option<()> {
    let (first, input) = octets.split_first()?;
    let task = Task {
        mode: Mode::Auto,
        limits: Limits::usual(),
        action: *ACTIONS.get(usize::from(*first))?,
    };
    let mut sink = Watched::new(Vec::new(alloc));
    run(alloc, &task, &mut Watched::new(input), &mut sink).ok()?;
    out.extend_from_slice(&sink.into_inner()).ok()
}
