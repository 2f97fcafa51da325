//! The table of the subpackets of a keyring's signatures.

ghost use Rattle.std.specs.Prelude.{◌≡◌, ◌∷◌, [], ◌+◌, ◌<◌, ◌≤◌, ◌^◌, length, MatchOption};
ghost use Rattle.opgp_packet.specs.Areas.{hashed_subs, unhashed_subs};
ghost use Rattle.opgp_packet.specs.SigView.{sig_view_value};
ghost use Rattle.opgp_packet.specs.Subs.{subs_to_come};
ghost use Rattle.opgp_packet.specs.SubMeaning.{meaning_shown};
ghost use Rattle.opgp_packet.specs.SubView.{sub_shown};
ghost use Rattle.opgp_tables.specs.Filling.{Fills};
ghost use Rattle.opgp_tables.specs.Subpackets.{area_octets, area_rows, areas_octets, areas_rows};
ghost use Rattle.opgp_tables.specs.Subpackets.{meaning_number, subpacket_row};

use crate::job_table::or_none;
use crate::putting::{put_item, put_octets};
use crate::subpacket_row::SubpacketRow;
use crate::subpacket_values::SubpacketValues;
use crate::table_sizes::TableSizes;
use opgp_packet::{SigView, SubMeaning, SubView, Subs};
use opgp_report::Place;

fn meaning_number(meaning: SubMeaning<'_>) -> u8
    ensures { result ≡ meaning_number (meaning_shown meaning.entry) }
{
    match meaning {
        SubMeaning::Unfit => 1,
        SubMeaning::Unknown => 2,
        _ => 0,
    }
}

/// The row of a subpacket of the signature at a place, whose data stands here.
fn row_of(place: Place, is_hashed: u8, at: u64, subpacket: SubView<'_>) -> SubpacketRow
    requires { at < 2 ^ 63 }
    ensures { result ≡ subpacket_row place is_hashed at (sub_shown subpacket.entry) }
{
    let octets = subpacket.octets();
    let meaning = subpacket.meaning();
    let SubpacketValues {
        form,
        numbers,
        before,
        sizes,
    } = SubpacketValues::of(meaning.fields());
    SubpacketRow {
        certificate: place.certificate as u64,
        component: or_none(place.component),
        hang: place.hang as u64,
        nested: or_none(place.nested),
        at,
        size: octets.len() as u64,
        fields_at: at + before,
        field_sizes: sizes,
        numbers,
        kind: subpacket.kind(),
        is_critical: subpacket.critical() as u8,
        is_hashed,
        meaning: meaning_number(meaning),
        form,
        reserved: [0; 3],
    }
}

/// Puts a subpacket behind so many rows and octets, and says how many there are then.
fn put_subpacket(
    rows: &mut [SubpacketRow],
    bytes: &mut [u8],
    here: TableSizes,
    place: Place,
    is_hashed: u8,
    subpacket: SubView<'_>,
) -> TableSizes
    requires rows { here.rows < length rows.old }
    requires bytes { here.bytes + length (sub_shown subpacket).octets ≤ length bytes.old }
    ensures { Fills (subpacket_row place is_hashed here.bytes (sub_shown subpacket.entry) ∷ [])
        (sub_shown subpacket.entry).octets here result rows.old rows.new bytes.old bytes.new }
{
    let octets = subpacket.octets();
    put_octets(bytes, here.bytes as usize, octets);
    put_item(
        rows,
        here.rows as usize,
        row_of(place, is_hashed, here.bytes, subpacket),
    );
    TableSizes {
        rows: here.rows + 1,
        bytes: here.bytes + octets.len() as u64,
    }
}

/// Puts the subpackets of an area.
fn put_area(
    rows: &mut [SubpacketRow],
    bytes: &mut [u8],
    here: TableSizes,
    place: Place,
    is_hashed: u8,
    mut subpackets: Subs<'_>,
) -> TableSizes
    requires rows { here.rows + length (subs_to_come subpackets) ≤ length rows.old }
    requires bytes { here.bytes + length (area_octets (subs_to_come subpackets))
        ≤ length bytes.old }
    ensures { Fills (area_rows place is_hashed here.bytes (subs_to_come subpackets.entry))
        (area_octets (subs_to_come subpackets.entry)) here result rows.old rows.new bytes.old
        bytes.new }
{
    let mut reached = here;
    'subpackets: while let Some(subpacket) = subpackets.next() {
        reached = put_subpacket(rows, bytes, reached, place, is_hashed, subpacket);
    }
    reached
}

/// The subpackets of a signature's hashed and unhashed area (RFC 9580, 5.2.3); None for a version
/// that has no areas.
pub(crate) fn areas_in<'a>(view: SigView<'a>) -> Option<(Subs<'a>, Subs<'a>)>
    ensures { MatchOption result
        ((hashed_subs (sig_view_value view.entry) ≡ [])
        × (unhashed_subs (sig_view_value view.entry) ≡ []))
        (λ areas. (subs_to_come areas.0 ≡ hashed_subs (sig_view_value view.entry))
        × (subs_to_come areas.1 ≡ unhashed_subs (sig_view_value view.entry))) }
{
    match view {
        SigView::Four(four) => Some((four.hashed(), four.unhashed())),
        SigView::Six(six) => Some((six.hashed(), six.unhashed())),
        SigView::Three(_) | SigView::Other(_) => None,
    }
}

/// Puts the subpackets of a signature's areas.
pub(crate) fn put_areas(
    rows: &mut [SubpacketRow],
    bytes: &mut [u8],
    here: TableSizes,
    place: Place,
    hashed: Subs<'_>,
    unhashed: Subs<'_>,
) -> TableSizes
    requires rows { here.rows + length (subs_to_come hashed) + length (subs_to_come unhashed)
        ≤ length rows.old }
    requires bytes { here.bytes + length (area_octets (subs_to_come hashed))
        + length (area_octets (subs_to_come unhashed)) ≤ length bytes.old }
    ensures { Fills (areas_rows place here.bytes (subs_to_come hashed.entry)
        (subs_to_come unhashed.entry)) (areas_octets (subs_to_come hashed.entry)
        (subs_to_come unhashed.entry)) here result rows.old rows.new bytes.old bytes.new }
{
    let behind = put_area(rows, bytes, here, place, 1, hashed);
    put_area(rows, bytes, behind, place, 0, unhashed)
}
