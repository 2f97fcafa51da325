//! What the definitions imply: the fields are the hashed octets, whole and in order, and each field
//! is where its place says.

ghost use Rattle.std.specs.Prelude.{◌≡◌, ◌++◌, ℕ, List, ◌∷◌, [], drop, length, take};
ghost use Rattle.std.specs.List.{flat_map};
ghost use Rattle.opgp_hash.specs.Hashed.{hashed};
ghost use Rattle.opgp_hash.specs.QuestionValue.{QuestionValue, IsQuestion};
ghost use Rattle.opgp_octets.specs.Octets.{IsOctets};
ghost use Rattle.opgp_packet.specs.Subpackets.{Sub, Area};
ghost use Rattle.opgp_explain.specs.Area.{area_fields, sub_fields};
ghost use Rattle.opgp_explain.specs.Field.{FieldValue, ◌is◌, octets_of, placed};
ghost use Rattle.opgp_explain.specs.Fields.{fields_of};
ghost use Rattle.opgp_explain.specs.declared.field.Field.{Field};
ghost use Rattle.opgp_explain.specs.declared.meaning.Meaning.TheVariants as meaning;

/// The octets of the fields, one after the other, are the hashed octets: none is left out, and none
/// is told twice.
pub fn fields_are_whole()
    ensures { (q : QuestionValue) → IsQuestion q → octets_of (fields_of q) ≡ hashed q }
{
    opgp_packet::field_laws::subpackets_are_read();
}

/// The octets of each field are those at its place.
pub fn fields_are_in_place()
    ensures { (before after : List FieldValue) (f : FieldValue)
        → take (length f.octets) (drop (length (octets_of before))
        (octets_of (before ++ f ∷ after))) ≡ f.octets }
{}

/// The place of each field begins where those before it end.
pub fn places_follow()
    ensures { (before after : List FieldValue) (f : FieldValue)
        → placed 0 (before ++ f ∷ after) ≡ placed 0 before
        ++ placed (length (octets_of before)) (f ∷ after) }
{}

/// An area of subpackets has the fields of each, in order.
pub fn subpackets_are_told()
    ensures { (subs : List Sub) (area : List ℕ) → IsOctets area → Area subs area
        → area_fields area ≡ flat_map sub_fields subs }
{
    opgp_packet::field_laws::subpackets_are_read();
}

/// An area that doesn't consist of subpackets is one field.
pub fn other_areas_are_whole()
    ensures { (area : List ℕ) → IsOctets area → ((subs : List Sub) → Area subs area → ⊥)
        → area_fields area ≡ (meaning.Area is area) ∷ [] }
{
    opgp_packet::field_laws::subpackets_are_read();
}
