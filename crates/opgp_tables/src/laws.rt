//! What the definitions of the tables imply.

ghost use Rattle.std.specs.Prelude.{◌≡◌, Bool, ℕ, List, Some, length, map};
ghost use Rattle.std.specs.List.{flat_map};
ghost use Rattle.opgp_octets.specs.declared.fault.Fault.{Fault};
ghost use Rattle.opgp_packet.specs.Forms.{Fields, Form, IsOf};
ghost use Rattle.opgp_hash.specs.declared.why.Why.{Why};
ghost use Rattle.opgp_hash.specs.Fingerprint.{print_octets};
ghost use Rattle.opgp_report.specs.Asked.{asked_of};
ghost use Rattle.opgp_report.specs.First.{print_of};
ghost use Rattle.opgp_report.specs.Report.{keys_in};
ghost use Rattle.opgp_report.specs.Standing.{standing_in};
ghost use Rattle.opgp_keyring.specs.Keyring.{KeyringValue, flat};
ghost use Rattle.opgp_packet.specs.SignatureBody.{signature_at};
ghost use Rattle.opgp_tables.specs.DocumentJobs.{Answer, document_job_bytes, document_job_rows};
ghost use Rattle.opgp_tables.specs.FaultRow.{fault_of, fault_row};
ghost use Rattle.opgp_tables.specs.Jobs.{asked_shown, job_bytes, job_parts, job_rows};
ghost use Rattle.opgp_tables.specs.Jobs.{job_shown, parts_read, sizes_in, why_number};
ghost use Rattle.opgp_tables.specs.Keys.{key_bytes, key_parts, key_rows};
ghost use Rattle.opgp_tables.specs.Names.{why_of};
ghost use Rattle.opgp_tables.specs.Packets.{packet_bytes, packet_rows, packet_shown, row_shown};
ghost use Rattle.opgp_tables.specs.Parts.{cuts};
ghost use Rattle.opgp_tables.specs.Room.{padded};
ghost use Rattle.opgp_tables.specs.SubpacketValues.{before_octets, octets_in};
ghost use Rattle.opgp_tables.specs.Subpackets.{sub_shown, subpacket_bytes, subpacket_rows};
ghost use Rattle.opgp_tables.specs.Subpackets.{subpacket_shown, subs_of};

/// The rows of a keyring's packets belong to its packets, in order: each states its packet's type,
/// and where its body is in the octets.
#[tactic(auto, using(crate::proofs::Pointing::packets_lie))]
pub fn rows_of_packets_point_at_their_bodies()
    ensures { (r : KeyringValue)
        → map (row_shown (packet_bytes r)) (packet_rows r)
        ≡ map packet_shown (flat r) }
{}

/// The rows of a keyring's keys belong to its keys, in the order by which the rows of jobs number
/// their signers: each has the key's fingerprint, and states where the fields of its material are
/// in the octets.
#[tactic(auto, using(crate::proofs::Naming::rows_are_keys, crate::proofs::Naming::material_lies))]
pub fn rows_of_keys_are_those_of_signers()
    ensures prints { (r : KeyringValue) → map (λ row. row.print) (key_rows r)
        ≡ map (λ body. padded 32 (print_octets (print_of body))) (keys_in r) }
    ensures material { (r : KeyringValue)
        → map (λ row. cuts (key_bytes r) row.at row.sizes) (key_rows r)
        ≡ map key_parts (keys_in r) }
{}

/// The rows of a keyring's jobs belong to its signatures, in the order of its report: each says why
/// the signature isn't hashed, or its digest, and states where what its algorithm made, and the
/// name of its issuer, are in the octets.
#[tactic(auto, using(crate::proofs::Working::are_questions, crate::proofs::Working::made_lies))]
pub fn rows_of_jobs_are_those_of_questions()
    ensures asked { (r : KeyringValue) → map job_shown (job_rows r)
        ≡ map asked_shown (asked_of r) }
    ensures made { (r : KeyringValue)
        → map (λ row. cuts (job_bytes r) row.at (sizes_in row)) (job_rows r)
        ≡ map job_parts (standing_in r) }
{}

/// The row of a fault stands for that fault; and the number of each reason why a signature isn't
/// hashed for that reason. So each has a name.
#[tactic(auto, using(crate::proofs::Lines::fault_listed, crate::proofs::Lines::why_listed))]
pub fn rows_of_faults_stand_for_them()
    ensures fault { (f : Fault) → fault_of (fault_row f) ≡ Some f }
    ensures why { (w : Why) → why_of (why_number w) ≡ Some w }
{}

/// The rows of a keyring's subpackets belong to its subpackets, those of each signature in the
/// order of its report, and of these the hashed ones first: each states its subpacket's kind, and
/// where its data is in the octets.
#[tactic(auto, using(crate::proofs::Holding::data_lies))]
pub fn rows_of_subpackets_point_at_their_data()
    ensures { (r : KeyringValue)
        → map (subpacket_shown (subpacket_bytes r)) (subpacket_rows r)
        ≡ map sub_shown (flat_map subs_of (standing_in r)) }
{}

/// The fields of octets of a subpacket's data are where its values say: behind so many octets, one
/// after the other.
#[tactic(auto, using(crate::proofs::Valued::fields_lie))]
pub fn fields_of_octets_lie_in_the_data()
    ensures { (f : Form) → (o : List ℕ) → (x : Fields f) → IsOf f o x
        → cuts o (before_octets f) (map length (octets_in f x)) ≡ octets_in f x }
{}

/// The rows of the signatures over a document belong to them, in order: each states where what its
/// algorithm made, and the name of its issuer, are in the octets.
#[tactic(auto, using(crate::proofs::Documents::rows_many, crate::proofs::Documents::made_lies))]
pub fn rows_of_documents_are_those_of_signatures()
    ensures many { (is_message : Bool) (r : KeyringValue) (bodies : List (List ℕ))
        (answers : List Answer) → length answers ≡ length bodies
        → length (document_job_rows is_message r bodies answers) ≡ length bodies }
    ensures made { (is_message : Bool) (r : KeyringValue) (bodies : List (List ℕ))
        (answers : List Answer) → length answers ≡ length bodies
        → map (λ row. cuts (document_job_bytes bodies) row.at (sizes_in row))
        (document_job_rows is_message r bodies answers)
        ≡ map (λ body. parts_read (signature_at body)) bodies }
{}
