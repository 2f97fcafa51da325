//! What the definitions imply.

ghost use Rattle.std.specs.Prelude.{◌≡◌, ◌≤◌, ◌+◌, ◌*◌, ◌⊎◌, ◌↔◌, All, ◌++◌, ◌∷◌, [], ℕ, List};
ghost use Rattle.std.specs.Prelude.{Some, length, sum_by, true, false};
ghost use Rattle.opgp_octets.specs.declared.limits.Limits.{Limits};
ghost use Rattle.opgp_octets.specs.Octets.{IsOctets};
ghost use Rattle.opgp_octets.specs.declared.malformed.Malformed.{Malformed};
ghost use Rattle.opgp_octets.specs.declared.fault.BodyFault.{BodyFault};
ghost use Rattle.opgp_octets.specs.declared.fault.Fault.{Fault};
ghost use Rattle.opgp_octets.specs.declared.fault.Reason.TheVariants.{CertTooLong};
ghost use Rattle.opgp_octets.specs.declared.packet_type.PacketType.{PacketType};
ghost use Rattle.opgp_frame.specs.Packet.{PacketValue};
ghost use Rattle.opgp_keyring.specs.Composed.{HasOctets, IsKeyringOf, IsFault, PartValue, parts_of};
ghost use Rattle.opgp_keyring.specs.Composition.{Item, AreKeyring, order_reason};
ghost use Rattle.opgp_keyring.specs.Detached.{IsDetachedFault, IsDetachedOf};
ghost use Rattle.opgp_keyring.specs.Keyring.{CertificateValue, IsCertificate, certificate_packets};
ghost use Rattle.opgp_keyring.specs.Keyring.{KeyringValue, IsKeyring, flat, octets_of};
ghost use Rattle.opgp_keyring.specs.Normal.{normal_of};
ghost use Rattle.opgp_keyring.specs.PacketBody.{HasBodyFault};
ghost use Rattle.opgp_keyring.specs.Parts.{AreParts};
ghost use Rattle.opgp_keyring.specs.Signed.{IsSignedFault, IsSignedOf};
ghost use Rattle.opgp_keyring.specs.declared.composer.Composer.{Composer};
ghost use Rattle.opgp_keyring.specs.Fed.{Fed, fault_of, held_of, is_ready, is_spent};
ghost use Rattle.opgp_keyring.specs.Taken.{IsAllButLast, so_far};

/// A list of packets is that of one keyring at most.
pub fn one_keyring()
    ensures { (r s : KeyringValue) → IsKeyring r → IsKeyring s → flat r ≡ flat s → r ≡ s }
{}

/// A list of packets is that of one certificate at most.
#[tactic(auto, using(crate::proofs::Split::one_certificate))]
pub fn one_certificate()
    ensures { (c d : CertificateValue) → IsCertificate c → IsCertificate d
        → certificate_packets c ≡ certificate_packets d → c ≡ d }
{}

/// As long as the items are those of a keyring, what was taken from a composer and what is ready
/// are all its parts but the last: nothing, if it has one part or none.
pub fn all_parts_but_the_last()
    ensures { (limits : Limits) (c : Composer) (given : List Item) (taken : List PartValue)
        (r : KeyringValue) → Fed limits c given taken → IsKeyringOf limits given r
        → IsAllButLast (so_far c taken) (parts_of r) }
{}

/// What was taken from a composer are all parts of some keyring, once nothing is ready.
pub fn parts_taken_are_a_keyrings()
    ensures { (limits : Limits) (c : Composer) (given : List Item) (taken : List PartValue)
        → Fed limits c given taken → is_ready c ≡ false → AreParts taken }
{}

/// After a fault or running out of memory nothing is held, once nothing is ready.
#[tactic(auto, using(crate::proofs::Holding::none_spare))]
pub fn nothing_is_held_after_a_fault()
    ensures fault { (c : Composer) (fault : Fault) → fault_of c ≡ Some fault
        → is_ready c ≡ false → held_of c ≡ 0 }
    ensures spent { (c : Composer) → is_spent c ≡ true → is_ready c ≡ false → held_of c ≡ 0 }
{}

/// The first packets of a keyring are those of a keyring.
pub fn prefixes_are_keyrings()
    ensures { (limits : Limits) (ps qs : List PacketValue) → AreKeyring limits (ps ++ qs)
        → AreKeyring limits ps }
{}

/// A packet's body has one fault at most.
pub fn one_body_fault()
    ensures { (policy : Malformed) (kind : PacketType) (o : List ℕ) (f g : BodyFault) → IsOctets o
        → HasBodyFault policy kind o f → HasBodyFault policy kind o g → f ≡ g }
{
    opgp_packet::field_laws::one_fault();
    opgp_packet::signature_laws::one_fault();
}

/// Items of a keyring have no fault.
pub fn no_fault()
    ensures { (limits : Limits) (items : List Item) (r : KeyringValue) (f : Fault)
        → IsKeyringOf limits items r → IsFault limits items f → ⊥ }
{}

/// Items have one fault at most.
pub fn one_fault()
    ensures { (limits : Limits) (items : List Item) (f g : Fault) → IsFault limits items f
        → IsFault limits items g → f ≡ g }
{
    one_body_fault();
}

/// Items whose bodies are octets are those of a keyring or have a fault.
pub fn some_answer()
    ensures { (limits : Limits) (items : List Item) → All HasOctets items
        → ((r : KeyringValue) × IsKeyringOf limits items r)
        ⊎ ((f : Fault) × IsFault limits items f) }
{
    opgp_packet::field_laws::some_answer();
    opgp_packet::field_laws::no_fault();
    opgp_packet::signature_laws::some_answer();
    opgp_packet::signature_laws::no_fault();
}

/// The octets of packets' bodies, and 8 for each packet, are together at most four times the octets
/// that the packets take (RFC 9580, 4.2).
pub fn bodies_and_8_a_packet_are_at_most_4_times_the_octets()
    ensures { (ps : List PacketValue) → sum_by (λ p. length p.body) ps + 8 * length ps
        ≤ 4 * octets_of ps }
{
    opgp_frame::laws::two_octets_beside_each_body();
}

/// After the packets of a keyring, a packet is reported as too long exactly if with it they would
/// be those of a keyring but for the limit.
pub fn too_long_is_told_of_what_would_be_a_keyring()
    ensures { (limits : Limits) (ps : List PacketValue) (p : PacketValue) → AreKeyring limits ps
        → (order_reason ps p ≡ CertTooLong)
        ↔ ((r : KeyringValue) × IsKeyring r × (flat r ≡ ps ++ p ∷ [])) }
{}

/// Normalising twice is normalising once.
#[tactic(auto, using(crate::proofs::Normalised::twice))]
pub fn normalised_twice()
    ensures { (r : KeyringValue) → normal_of (normal_of r) ≡ normal_of r }
{}

/// Items are those of one signed literal at most.
pub fn one_signed_literal()
    ensures { (policy : Malformed) (items : List Item) (ps qs : List PacketValue)
        → IsSignedOf policy items ps → IsSignedOf policy items qs → ps ≡ qs }
{}

/// Items of a signed literal have no fault as one.
pub fn no_signed_fault()
    ensures { (policy : Malformed) (items : List Item) (ps : List PacketValue) (f : Fault)
        → IsSignedOf policy items ps → IsSignedFault policy items f → ⊥ }
{}

/// Items have one fault at most as a signed literal.
pub fn one_signed_fault()
    ensures { (policy : Malformed) (items : List Item) (f g : Fault) → IsSignedFault policy items f
        → IsSignedFault policy items g → f ≡ g }
{
    one_body_fault();
}

/// Items whose bodies are octets are those of a signed literal or have a fault as one.
pub fn some_signed_answer()
    ensures { (policy : Malformed) (items : List Item) → All HasOctets items
        → ((ps : List PacketValue) × IsSignedOf policy items ps)
        ⊎ ((f : Fault) × IsSignedFault policy items f) }
{
    opgp_packet::field_laws::some_answer();
    opgp_packet::field_laws::no_fault();
    opgp_packet::signature_laws::some_answer();
    opgp_packet::signature_laws::no_fault();
}

/// Items are those of one list of detached signatures at most.
pub fn one_list_of_signatures()
    ensures { (policy : Malformed) (items : List Item) (ps qs : List PacketValue)
        → IsDetachedOf policy items ps → IsDetachedOf policy items qs → ps ≡ qs }
{}

/// Items of detached signatures have no fault as such.
pub fn no_detached_fault()
    ensures { (policy : Malformed) (items : List Item) (ps : List PacketValue) (f : Fault)
        → IsDetachedOf policy items ps → IsDetachedFault policy items f → ⊥ }
{}

/// Items have one fault at most as detached signatures.
pub fn one_detached_fault()
    ensures { (policy : Malformed) (items : List Item) (f g : Fault)
        → IsDetachedFault policy items f → IsDetachedFault policy items g → f ≡ g }
{
    one_body_fault();
}

/// Items whose bodies are octets are those of detached signatures or have a fault as such.
pub fn some_detached_answer()
    ensures { (policy : Malformed) (items : List Item) → All HasOctets items
        → ((ps : List PacketValue) × IsDetachedOf policy items ps)
        ⊎ ((f : Fault) × IsDetachedFault policy items f) }
{
    some_signed_answer();
}
