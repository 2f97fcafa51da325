//! What the definitions imply: reading undoes encoding, a body has one reading or one first fault,
//! and no subpacket's encoding is a proper prefix of another's.

ghost use Rattle.std.specs.Prelude.{◌≡◌, ◌↔◌, ◌⊎◌, ◌++◌, List, ℕ, Ok, Err, length};
ghost use Rattle.opgp_octets.specs.Octets.{IsOctets};
ghost use Rattle.opgp_octets.specs.declared.fault.BodyFault.{BodyFault};
ghost use Rattle.opgp_packet.specs.AreaReading.{area_at};
ghost use Rattle.opgp_packet.specs.FieldReading.{body_at};
ghost use Rattle.opgp_packet.specs.Fields.{Field, Grammar, Body, FirstFault};
ghost use Rattle.opgp_packet.specs.Subpackets.{Sub, IsSub, sub_octets, Area, AreaFault};

/// Fields are read from octets exactly if the octets encode those fields, one after the other.
pub fn fields_are_read()
    ensures { (grammar : Grammar) (fields : List Field) (o : List ℕ) → IsOctets o
        → (body_at grammar o ≡ Ok fields) ↔ Body grammar fields o }
{}

/// A fault is reported exactly if it is at the first field that can't be read at its place.
pub fn the_first_fault_is_answered()
    ensures { (grammar : Grammar) (o : List ℕ) (f : BodyFault) → IsOctets o
        → (body_at grammar o ≡ Err f) ↔ FirstFault (length o) grammar o f }
{}

/// A body has at most one list of fields.
#[tactic(auto, using(crate::proofs::GrammarLaws::one_body))]
pub fn one_body()
    ensures { (grammar : Grammar) (fields others : List Field) (o : List ℕ) → Body grammar fields o
        → Body grammar others o → fields ≡ others }
{}

/// Octets have at most one first fault.
#[tactic(auto, using(crate::proofs::GrammarLaws::one_fault))]
pub fn one_fault()
    ensures { (grammar : Grammar) (o : List ℕ) (f g : BodyFault) → IsOctets o
        → FirstFault (length o) grammar o f → FirstFault (length o) grammar o g → f ≡ g }
{}

/// A body has no fault.
#[tactic(auto, using(crate::proofs::GrammarLaws::no_fault))]
pub fn no_fault()
    ensures { (grammar : Grammar) (fields : List Field) (o : List ℕ) (f : BodyFault) → IsOctets o
        → Body grammar fields o → FirstFault (length o) grammar o f → ⊥ }
{}

/// All octets are a body or have a first fault.
pub fn some_answer()
    ensures { (grammar : Grammar) (o : List ℕ) → IsOctets o
        → ((fields : List Field) × Body grammar fields o)
        ⊎ ((f : BodyFault) × FirstFault (length o) grammar o f) }
{}

/// Subpackets are read from an area exactly if it consists of them, one after the other.
pub fn subpackets_are_read()
    ensures { (end : ℕ) (subs : List Sub) (o : List ℕ) → IsOctets o
        → (area_at end o ≡ Ok subs) ↔ Area subs o }
{}

/// An area's fault is reported exactly if it is at the first subpacket that can't be read at its
/// place.
pub fn the_area_fault_is_answered()
    ensures { (end : ℕ) (o : List ℕ) (f : BodyFault) → IsOctets o
        → (area_at end o ≡ Err f) ↔ AreaFault end o f }
{}

/// No subpacket's encoding is a proper prefix of another's.
#[tactic(auto, using(crate::proofs::AreaLaws::one_sub))]
pub fn one_subpacket()
    ensures { (s t : Sub) (x y : List ℕ) → IsSub s → IsSub t
        → sub_octets s ++ x ≡ sub_octets t ++ y → (s ≡ t) × (x ≡ y) }
{}
