//! Example programs over the crates: the first word names the program.
#![tactic(auto)]

mod certificates;
mod packets;
mod reopening;
mod rewriting;
mod verifying;
mod walk;

use anyhow::{Result, bail};
use std::env;
use std::io::{BufReader, Read};

fn main(rt: HostRuntime) -> Result<()> {
    let words = env::args(&rt)?.collect::<Vec<String>>(rt.alloc())?;
    match words.get(1).map(|word| word.as_str()) {
        Some("walk") => walk::walk(&rt, &read_all(&rt)?),
        Some("certificates") => certificates::certificates(
            &rt,
            BufReader::new(rt.alloc(), rt.stdin())?,
        ),
        Some("packets") => packets::packets(&rt, BufReader::new(rt.alloc(), rt.stdin())?),
        Some("verify") => verifying::verify(&rt, rt.stdin(), &words[2..]),
        Some("reopen") => reopening::show_question(&rt, &read_all(&rt)?),
        Some("rewrite") => rewriting::rewrite(&rt, rt.stdin(), rt.stdout()),
        _ => bail!("usage: opgp_examples walk|certificates|packets|verify|reopen|rewrite"),
    }
}

/// All octets of standard input.
fn read_all(rt: &HostRuntime) -> Result<Vec<u8>> {
    let mut octets = Vec::new(rt.alloc());
    rt.stdin().read_to_end(&mut octets)?;
    Ok(octets)
}
