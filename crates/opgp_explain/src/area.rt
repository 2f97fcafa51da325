//! The fields of a signature's hashed area.

ghost use Rattle.std.specs.Prelude.{◌+◌, ◌≤◌, ◌^◌, ◌∷◌, [], IfOk};
ghost use Rattle.std.specs.List.{flat_map};
ghost use Rattle.opgp_octets.specs.Octets.{IsBodySized};
ghost use Rattle.opgp_octets.specs.SubLen.{sub_len_octets, SubLenFits};
ghost use Rattle.opgp_packet.specs.Subpacket.{sub_seen};
ghost use Rattle.opgp_packet.specs.Subpackets.{subs_octets};
ghost use Rattle.opgp_packet.specs.Walk.{subs_left};
ghost use Rattle.opgp_explain.specs.Field.{◌is◌};
ghost use Rattle.opgp_explain.specs.Area.{area_fields, sub_fields};
ghost use Rattle.opgp_explain.specs.Telling.{Tells};
ghost use Rattle.opgp_explain.specs.declared.meaning.Meaning.TheVariants as meaning;
ghost use Rattle.opgp_explain.specs.declared.meaning.SubpacketPart.TheVariants.{Length};

use crate::meaning::{Meaning, SubpacketPart};
use crate::telling::Telling;
use opgp_octets::{OutOfMemory, SubLen, SubpacketKind};
use opgp_packet::{Subpacket, Walk, fault_in_area};

/// The fields of a hashed area: those of its subpackets, or one if it doesn't consist of them.
pub(crate) fn tell_area(telling: Telling, area: &[u8]) -> Result<Telling, OutOfMemory>
    requires room { telling.end ≤ 2 ^ 63 + 2 ^ 59 + 8 }
    requires sized { IsBodySized area.now }
    ensures tells { IfOk result (λ t. Tells telling t (area_fields area.now)) }
    ensures most { IfOk result (λ t. t.end ≤ telling.end + 4294967295) }
{
    match fault_in_area(area, area.len()) {
        None => tell_subpackets(telling, Walk::new(area)),
        Some(_) => telling.with(Meaning::Area, area),
    }
}

/// The fields of subpackets, one after the other.
fn tell_subpackets(telling: Telling, mut subpackets: Walk<'_>) -> Result<Telling, OutOfMemory>
    requires room { telling.end ≤ 2 ^ 63 + 2 ^ 59 + 8 }
    requires sized { IsBodySized (subs_octets (subs_left subpackets)) }
    ensures { IfOk result (λ t. Tells telling t
        (flat_map sub_fields (subs_left subpackets.entry))) }
{
    let mut told = telling;
    'subpackets: while let Some(subpacket) = subpackets.next() {
        told = tell_subpacket(told, &subpacket)?;
    }
    Ok(told)
}

/// The fields of a subpacket.
fn tell_subpacket(telling: Telling, subpacket: &Subpacket<'_>) -> Result<Telling, OutOfMemory>
    requires room { telling.end ≤ 2 ^ 63 + 2 ^ 59 + 2 ^ 33 }
    ensures { IfOk result (λ t. Tells telling t (sub_fields (sub_seen subpacket.now))) }
{
    let kind = subpacket.kind();
    let data = SubpacketPart::Data(SubpacketKind::from(kind % 128));
    let octets = subpacket.octets();
    let telling = tell_length(telling, subpacket.len())?;
    let telling = telling.with(Meaning::Subpacket(SubpacketPart::Type), &[kind])?;
    telling.with(Meaning::Subpacket(data), octets)
}

/// The length of a subpacket.
fn tell_length(telling: Telling, length: SubLen) -> Result<Telling, OutOfMemory>
    requires room { telling.end ≤ 2 ^ 63 + 2 ^ 59 + 2 ^ 33 }
    requires fits { SubLenFits length }
    ensures { IfOk result (λ t. Tells telling t
        ((meaning.Subpacket Length is sub_len_octets length) ∷ [])) }
{
    let meaning = Meaning::Subpacket(SubpacketPart::Length);
    match length {
        SubLen::One(n) => telling.with(meaning, &[n]),
        SubLen::Two(n) => {
            let high = ((n - 192) / 256 + 192) as u8;
            let low = ((n - 192) % 256) as u8;
            telling.with(meaning, &[high, low])
        }
        SubLen::Five(n) => {
            let [a, b, c, d] = n.to_be_bytes();
            telling.with(meaning, &[255, a, b, c, d])
        }
    }
}
