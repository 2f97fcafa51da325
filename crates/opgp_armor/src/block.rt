//! The blocks of an armored text.

ghost use Rattle.std.specs.Prelude.{◌≡◌, IfOk};
ghost use Rattle.opgp_armor.specs.Blocks.{block_of, headers_of};

use crate::label::Label;
use opgp_octets::OutOfMemory;
use std::alloc::Global;

/// A block of an armored text (RFC 9580, 6.2).
#[derive(Drop)]
pub struct Block {
    /// The label of its begin line and its end line.
    pub label: Label,
    /// Its headers in order, each a key and a value.
    pub headers: Vec<(Vec<u8>, Vec<u8>)>,
    /// The decoded octets.
    pub octets: Vec<u8>,
}

/// A copy of these headers.
fn copy_headers(
    alloc: Global,
    headers: &[(Vec<u8>, Vec<u8>)],
) -> Result<Vec<(Vec<u8>, Vec<u8>)>, OutOfMemory>
    ensures { IfOk result (λ copied. headers_of copied.items ≡ headers_of headers.now) }
{
    let mut copied = Vec::new(alloc);
    for (key, value) in headers {
        let key = Vec::from_slice(alloc, key.as_slice())?;
        let value = Vec::from_slice(alloc, value.as_slice())?;
        copied.push((key, value))?;
    }
    Ok(copied)
}

impl Block {
    /// A copy of this block. Fails only when out of memory.
    pub fn copy(&self, alloc: Global) -> Result<Block, OutOfMemory>
        ensures { IfOk result (λ b. block_of b ≡ block_of self.now) }
    {
        let headers = copy_headers(alloc, self.headers.as_slice())?;
        let octets = Vec::from_slice(alloc, self.octets.as_slice())?;
        Ok(Block {
            label: self.label,
            headers,
            octets,
        })
    }
}
