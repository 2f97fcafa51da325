//! What hashed octets belong to.

use anyhow::Result;
use opgp::hash::{Question, Subject, fingerprint_of_view, reopen};
use opgp::octets::{SignatureType, u32_at};
use opgp::packet::{Walk, fault_in_area};

/// The question that the octets are hashed for, or that there is none.
pub(crate) fn show_question(rt: &(impl Print + AllocGlobal), octets: &[u8]) -> Result<()> {
    let Some(question) = reopen(octets) else {
        println!(rt; "of no question")?;
        return Ok(());
    };
    let kind = SignatureType::from(question.kind()).name();
    let version = question.version();
    println!(rt; "{kind}, version {version}")?;
    show_subject(rt, &question.subject())?;
    match created(question.hashed_area()) {
        Some(time) => println!(rt; "created {time}")?,
        None => println!(rt; "of no time")?,
    }
    Ok(())
}

/// What a signature is about.
fn show_subject(rt: &(impl Print + AllocGlobal), subject: &Subject<'_>) -> Result<()> {
    match *subject {
        Subject::Binary(content) => {
            let count = content.len();
            println!(rt; "about {count} octets")?;
        }
        Subject::One(key) => {
            let print = fingerprint_of_view(key);
            println!(rt; "about {print}")?;
        }
        Subject::Two(primary, subkey) => {
            let (primary, subkey) = (fingerprint_of_view(primary), fingerprint_of_view(subkey));
            println!(rt; "about {primary} and {subkey}")?;
        }
        Subject::OnUserId(primary, id) => {
            let print = fingerprint_of_view(primary);
            let text = String::from_utf8_lossy(rt.alloc(), id)?;
            let text = text.as_str();
            println!(rt; "about {print} and {text:?}")?;
        }
        Subject::OnAttribute(primary, _) => {
            let print = fingerprint_of_view(primary);
            println!(rt; "about {print} and an attribute")?;
        }
    }
    Ok(())
}

/// The creation time in a hashed area (RFC 9580, 5.2.3.11): the first subpacket of kind 2 has it.
fn created(area: &[u8]) -> Option<u32> {
    if fault_in_area(area, area.len()).is_some() {
        return None;
    }
    for subpacket in Walk::new(area) {
        if subpacket.kind() & 0x7F == 2 {
            let (time, _) = u32_at(subpacket.octets())?;
            return Some(time);
        }
    }
    None
}
