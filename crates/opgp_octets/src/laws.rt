//! What the definitions imply: no encoding is a proper prefix of another, and what was written is
//! read again.

ghost use Rattle.std.specs.Prelude.{◌≡◌, ◌++◌, List, ℕ, Bool, Some, Ok, length};
ghost use Rattle.opgp_octets.specs.Fault.{layer_number, layer_of, reason_number, reason_of};
ghost use Rattle.opgp_octets.specs.PacketLen.{PacketLenFits, packet_len_octets, packet_len_at};
ghost use Rattle.opgp_octets.specs.SubLen.{SubLenFits, sub_len_octets, sub_len_at};
ghost use Rattle.opgp_octets.specs.Mpi.{MpiValue, IsMpi, MayStand, mpi_octets, mpi_at};
ghost use Rattle.opgp_octets.specs.declared.fault.Layer.{Layer};
ghost use Rattle.opgp_octets.specs.declared.fault.Reason.{Reason};
ghost use Rattle.opgp_octets.specs.declared.packet_len.PacketLen.{PacketLen};
ghost use Rattle.opgp_octets.specs.declared.sub_len.SubLen.{SubLen};

/// Each layer, and each reason, is what its number stands for. So no two have one number.
#[tactic(auto, using(crate::proofs::Numbers::layer_listed, crate::proofs::Numbers::reason_listed))]
pub fn numbers_of_faults()
    ensures layer { (l : Layer) → layer_of (layer_number l) ≡ Some l }
    ensures reason { (r : Reason) → reason_of (reason_number r) ≡ Some r }
{}

/// No packet length's encoding is a proper prefix of another's.
#[tactic(auto, using(crate::proofs::PacketLens::one_packet_len))]
pub fn one_packet_len()
    ensures { (l m : PacketLen) (x y : List ℕ) → PacketLenFits l → PacketLenFits m
        → packet_len_octets l ++ x ≡ packet_len_octets m ++ y → (l ≡ m) × (x ≡ y) }
{}

/// A packet length that was written is read again, whatever follows it.
#[tactic(auto, using(crate::proofs::PacketLens::packet_len_again))]
pub fn written_packet_len()
    ensures { (l : PacketLen) (rest : List ℕ) → PacketLenFits l
        → packet_len_at (packet_len_octets l ++ rest) ≡ Some (l, length (packet_len_octets l)) }
{}

/// No subpacket length's encoding is a proper prefix of another's.
#[tactic(auto, using(crate::proofs::SubLens::one_sub_len))]
pub fn one_sub_len()
    ensures { (l m : SubLen) (x y : List ℕ) → SubLenFits l → SubLenFits m
        → sub_len_octets l ++ x ≡ sub_len_octets m ++ y → (l ≡ m) × (x ≡ y) }
{}

/// A subpacket length that was written is read again, whatever follows it.
#[tactic(auto, using(crate::proofs::SubLens::sub_len_again))]
pub fn written_sub_len()
    ensures { (l : SubLen) (rest : List ℕ) → SubLenFits l
        → sub_len_at (sub_len_octets l ++ rest) ≡ Some (l, length (sub_len_octets l)) }
{}

/// No multiprecision integer's encoding is a proper prefix of another's.
#[tactic(auto, using(crate::proofs::Mpis::one_mpi))]
pub fn one_mpi()
    ensures { (m n : MpiValue) (x y : List ℕ) → IsMpi m → IsMpi n
        → mpi_octets m ++ x ≡ mpi_octets n ++ y → (m ≡ n) × (x ≡ y) }
{}

/// A multiprecision integer that was written is read again where it is allowed, whatever follows
/// it.
#[tactic(auto, using(crate::proofs::Mpis::mpi_again))]
pub fn written_mpi()
    ensures { (strict : Bool) (m : MpiValue) (rest : List ℕ) → IsMpi m → MayStand strict m
        → mpi_at strict (mpi_octets m ++ rest) ≡ Ok (m, rest) }
{}
