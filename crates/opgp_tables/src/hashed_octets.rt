//! The octets that the signature of a row hashes.

ghost use Rattle.std.specs.Prelude.{◌≡◌, Some, None, IfSome, IfOk, slice_get};
ghost use Rattle.std.specs.Option.{option_map};
ghost use Rattle.opgp_hash.specs.Hashed.{hashed};
ghost use Rattle.opgp_report.specs.Asked.{asked_of, question_in};

use opgp_hash::write_octets;
use opgp_keyring::Keyring;
use opgp_octets::OutOfMemory;
use opgp_report::question_at;
use std::alloc::Global;

/// The octets that the signature of this row hashes (RFC 9580, 5.2.4), by its number in the table
/// of jobs; None if it isn't hashed, or there is no such row. Fails only when out of memory.
pub fn row_octets(
    alloc: Global,
    keyring: &Keyring,
    row: usize,
) -> Result<Option<Vec<u8>>, OutOfMemory>
    ensures { IfOk result (λ found. option_map (λ v. v.items) found
        ≡ option_map (λ q. hashed q) (question_in (slice_get (asked_of keyring.now) row))) }
{
    let Some(question) = question_at(keyring, row) else {
        return Ok(None);
    };
    let mut octets = Vec::new(alloc);
    write_octets(&question, &mut octets)?;
    Ok(Some(octets))
}
