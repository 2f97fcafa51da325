//! What the definitions imply: a signature is read exactly if the octets encode it, and a body has
//! one reading or one first fault; a subpacket's data has one meaning, and a typed meaning one
//! encoding.

ghost use Rattle.std.specs.Prelude.{◌≡◌, ◌↔◌, ◌⊎◌, List, ℕ, Ok, Err};
ghost use Rattle.opgp_octets.specs.Octets.{IsOctets};
ghost use Rattle.opgp_octets.specs.declared.fault.BodyFault.{BodyFault};
ghost use Rattle.opgp_octets.specs.declared.subpacket_kind.SubpacketKind.{SubpacketKind};
ghost use Rattle.opgp_packet.specs.Meaning.{Meaning, Means, Writes, IsListed};
ghost use Rattle.opgp_packet.specs.MeaningReading.{meaning_of};
ghost use Rattle.opgp_packet.specs.declared.signature.Signature.{Signature};
ghost use Rattle.opgp_packet.specs.Signature.{signature_octets, signature_value};
ghost use Rattle.opgp_packet.specs.SignatureBody.{SignatureValue, Spells, SignatureFault};
ghost use Rattle.opgp_packet.specs.SignatureBody.{signature_at};

/// A signature is read from octets exactly if they encode it.
pub fn signatures_are_read()
    ensures { (value : SignatureValue) (o : List ℕ) → IsOctets o
        → (signature_at o ≡ Ok value) ↔ Spells value o }
{}

/// A fault is reported exactly if it is at the first field that can't be read at its place.
pub fn the_first_fault_is_answered()
    ensures { (o : List ℕ) (f : BodyFault) → IsOctets o
        → (signature_at o ≡ Err f) ↔ SignatureFault o f }
{}

/// A body encodes at most one signature.
pub fn one_signature()
    ensures { (value other : SignatureValue) (o : List ℕ) → IsOctets o → Spells value o
        → Spells other o
        → value ≡ other }
{}

/// Octets have at most one first fault.
#[tactic(auto, using(crate::proofs::SignatureLaws::one_fault))]
pub fn one_fault()
    ensures { (o : List ℕ) (f g : BodyFault) → IsOctets o → SignatureFault o f → SignatureFault o g
        → f ≡ g }
{}

/// A signature has no fault.
#[tactic(auto, using(crate::proofs::SignatureLaws::no_fault))]
pub fn no_fault()
    ensures { (value : SignatureValue) (o : List ℕ) (f : BodyFault) → IsOctets o
        → Spells value o → SignatureFault o f → ⊥ }
{}

/// All octets are a signature or have a first fault.
#[tactic(auto, using(crate::proofs::SignatureLaws::some_answer))]
pub fn some_answer()
    ensures { (o : List ℕ) → IsOctets o
        → ((value : SignatureValue) × Spells value o) ⊎ ((f : BodyFault) × SignatureFault o f) }
{}

/// The body that is written of a signature is read again as that signature.
#[tactic(auto, using(crate::proofs::ValueLaws::written))]
pub fn written_signature()
    ensures { (s : Signature) → signature_at (signature_octets s) ≡ Ok (signature_value s) }
{}

/// The data of a kind of subpacket has one meaning.
#[tactic(auto, using(crate::proofs::MeaningLaws::one_meaning))]
pub fn one_meaning()
    ensures { (kind : SubpacketKind) (o : List ℕ) (m n : Meaning) → Means kind o m → Means kind o n
        → m ≡ n }
{}

/// Reading data as that of a kind gives its meaning.
#[tactic(auto, using(crate::proofs::MeaningLaws::meanings_are_read))]
pub fn meanings_are_read()
    ensures { (kind : SubpacketKind) (o : List ℕ) → IsOctets o → Means kind o (meaning_of kind o) }
{}

/// A typed meaning is that of one sequence of octets.
#[tactic(auto, using(crate::proofs::MeaningLaws::one_spelling))]
pub fn one_spelling()
    ensures { (kind : SubpacketKind) (o p : List ℕ) (m : Meaning) → Writes kind o m
        → Writes kind p m → o ≡ p }
{}

/// For each kind that is listed there are octets of its form.
#[tactic(auto, using(crate::proofs::FormLaws::has_form))]
pub fn listed_kinds_have_forms()
    ensures { (kind : SubpacketKind) → IsListed kind
        → (o : List ℕ) × ((m : Meaning) × (IsOctets o × Writes kind o m)) }
{}
