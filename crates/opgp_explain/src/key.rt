//! The fields of a key.

ghost use Rattle.std.specs.Prelude.{◌≡◌, ◌+◌, ◌≤◌, ◌^◌, IfOk, drop, length, slice_index, take};
ghost use Rattle.opgp_octets.specs.Octets.{IsBodySized};
ghost use Rattle.opgp_packet.specs.Parsed.{body_octets};
ghost use Rattle.opgp_explain.specs.Key.{cut, key_fields, key_front, key_sizes};
ghost use Rattle.opgp_explain.specs.Telling.{Tells};

use crate::meaning::{KeyPart, Meaning, Role};
use crate::telling::Telling;
use opgp_octets::OutOfMemory;
use opgp_packet::KeyView;

/// The fields of a key of this version.
pub(crate) fn tell_key(
    telling: Telling,
    role: Role,
    version: u8,
    key: &KeyView<'_>,
) -> Result<Telling, OutOfMemory>
    requires room { telling.end ≤ 2 ^ 63 + 2 ^ 56 }
    requires version { slice_index (body_octets key.now) 0 ≡ version }
    ensures tells { IfOk result (λ t. Tells telling t
        (key_fields role version (body_octets key.now))) }
    ensures most { IfOk result (λ t. t.end ≤ telling.end + 2 ^ 33) }
{
    let telling = tell_key_front(telling, role, version, key)?;
    tell_key_body(telling, role, version, key.body())
}

/// The prefix and the length of a key of this version.
fn tell_key_front(
    telling: Telling,
    role: Role,
    version: u8,
    key: &KeyView<'_>,
) -> Result<Telling, OutOfMemory>
    requires room { telling.end ≤ 2 ^ 63 + 2 ^ 56 }
    requires version { slice_index (body_octets key.now) 0 ≡ version }
    ensures tells { IfOk result (λ t. Tells telling t
        (key_front role version (body_octets key.now))) }
    ensures most { IfOk result (λ t. t.end ≤ telling.end + 5) }
{
    let body = key.body();
    if version == 4 {
        let count = (body.len() as u16).to_be_bytes();
        let telling = telling.with(Meaning::Key(role, KeyPart::Prefix), &[0x99])?;
        telling.with(Meaning::Key(role, KeyPart::Length), &count)
    } else {
        let count = (body.len() as u32).to_be_bytes();
        let telling = telling.with(Meaning::Key(role, KeyPart::Prefix), &[0x9B])?;
        telling.with(Meaning::Key(role, KeyPart::Length), &count)
    }
}

/// The fields of the body of a key of this version.
fn tell_key_body(
    telling: Telling,
    role: Role,
    version: u8,
    body: &[u8],
) -> Result<Telling, OutOfMemory>
    requires room { telling.end ≤ 2 ^ 63 + 2 ^ 57 }
    requires sized { IsBodySized body.now }
    ensures tells { IfOk result (λ t. Tells telling t
        (cut role (key_sizes version) body.now)) }
    ensures most { IfOk result (λ t. t.end ≤ telling.end + 4294967295) }
{
    let (octets, rest) = front(body, 1);
    let telling = telling.with(Meaning::Key(role, KeyPart::Version), octets)?;
    let (octets, rest) = front(rest, 4);
    let telling = telling.with(Meaning::Key(role, KeyPart::Created), octets)?;
    let (octets, rest) = front(rest, 1);
    let telling = telling.with(Meaning::Key(role, KeyPart::Algorithm), octets)?;
    if version == 4 {
        return telling.with(Meaning::Key(role, KeyPart::Material), rest);
    }
    let (octets, rest) = front(rest, 4);
    let telling = telling.with(Meaning::Key(role, KeyPart::MaterialLength), octets)?;
    telling.with(Meaning::Key(role, KeyPart::Material), rest)
}

/// The first `n` octets, and those behind them.
fn front(o: &[u8], n: usize) -> (&[u8], &[u8])
    ensures first { result.0.now ≡ take n o.now }
    ensures rest { result.1.now ≡ drop n o.now }
    ensures sum { length result.0.now + length result.1.now ≡ length o.now }
{
    o.split_at(n.min(o.len()))
}
