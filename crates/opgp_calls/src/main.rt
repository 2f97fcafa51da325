//! Public calls of the crates that no other test makes: a line of standard input names a call and
//! has the octets that it is given, and a line is written with the octets that it makes.
#![tactic(auto)]

mod armor;
mod bodies;
mod headers;
mod lines;
mod packets;

use anyhow::Result;
use opgp_packet::{Attribute, Key, Literal};
use std::alloc::Global;
use std::io::Read;

/// The most octets of a body.
const MOST: usize = 4_294_967_295;

fn main(rt: HostRuntime) -> Result<()> {
    let text = read_all(&rt)?;
    for line in text.as_str().lines() {
        answer(&rt, line)?;
    }
    Ok(())
}

/// The text of standard input.
fn read_all(rt: &HostRuntime) -> Result<String> {
    let mut text = String::new(rt.alloc());
    rt.stdin().read_to_string(&mut text)?;
    Ok(text)
}

/// Writes the answer to a line, in hexadecimal; `memory` where there is none.
fn answer(rt: &(impl Print + AllocGlobal), line: &str) -> Result<()> {
    match answered(rt.alloc(), line) {
        Some(text) => rt.println(text.as_str())?,
        None => rt.println("memory")?,
    }
    Ok(())
}

/// The answer to a line: a name, and octets in hexadecimal.
fn answered(alloc: Global, line: &str) -> Option<String> {
    let (name, digits) = line.split_once(' ')?;
    let octets = hex::decode(alloc, digits).ok()?;
    let mut out = Vec::new(alloc);
    call(alloc, name, &octets, &mut out)?;
    hex::encode(alloc, out.as_slice()).ok()
}

/// Adds what a call makes of octets; None where memory runs out, where it refuses the octets, and
/// where there is no call of the name.
fn call(alloc: Global, name: &str, octets: &[u8], out: &mut Vec<u8>) -> Option<()> {
    if octets.len() > MOST {
        return None;
    }
    match name {
        "key" => bodies::add_value(alloc, Key::parse_body(alloc, octets), out),
        "attribute" => bodies::add_value(alloc, Attribute::parse_body(alloc, octets), out),
        "literal" => bodies::add_value(alloc, Literal::parse_body(alloc, octets), out),
        "user_id" => bodies::add_user_id(alloc, octets, out),
        "signature" => bodies::add_signature(alloc, octets, out),
        "lengths" => bodies::add_lengths(octets, out),
        "integer" => bodies::add_integer(alloc, octets, out),
        "armor" => armor::add_blocks(alloc, octets, out),
        "fields" => lines::add_fields(alloc, octets, out),
        "errors" => lines::add_errors(alloc, out),
        "run" => lines::add_run(alloc, octets, out),
        _ => packets::add_made(alloc, name, octets, out),
    }
}
