//! A row of the table of subpackets.

/// A subpacket of a signature (RFC 9580, 5.2.3.7). Its data, the octets behind its type octet, is
/// in the table's octets, from `at`.
#[repr(C)]
#[derive(Clone, Copy)]
pub struct SubpacketRow {
    /// The certificate of its signature, as in the row of the signature's job.
    pub certificate: u64,
    /// The component that its signature is on, as there.
    pub component: u64,
    /// The number of its signature among the packets that follow that, as there.
    pub hang: u64,
    /// The number of its signature among the embedded ones, as there.
    pub nested: u64,
    /// Where its data begins in the octets.
    pub at: u64,
    /// How many octets its data has.
    pub size: u64,
    /// Where the fields of its data that are octets begin in the table's octets; they stand one
    /// after the other.
    pub fields_at: u64,
    /// How many octets each of these has; 0 for one that the form doesn't have.
    pub field_sizes: [u64; 2],
    /// The fields of its data that are numbers; 0 for one that the form doesn't have.
    pub numbers: [u32; 2],
    /// Its kind, 0 to 127: the type octet without bit 7.
    pub kind: u8,
    /// 1: it is critical, by bit 7 of the type octet.
    pub is_critical: u8,
    /// 1: it is in the hashed area.
    pub is_hashed: u8,
    /// What is known of its data: 0, it has the form of its kind; 1, it hasn't; 2, its kind is
    /// unknown.
    pub meaning: u8,
    /// The form of its data, with its numbers and its fields of octets:
    ///
    /// - 1: a number of four octets (5.2.3.11);
    /// - 2: an octet, as a number (5.2.3.19);
    /// - 3: two octets, as numbers: a depth and an amount (5.2.3.21);
    /// - 4: a text, without the octet 0 at its end (5.2.3.22);
    /// - 5: octets: a list of algorithms, flags or a text (5.2.3.14, 5.2.3.29, 5.2.3.30);
    /// - 6: a class, an algorithm; a fingerprint (5.2.3.23);
    /// - 7: a key ID (5.2.3.12);
    /// - 8: flags; a name, a value (5.2.3.24);
    /// - 9: a code; a text (5.2.3.31);
    /// - 10: a key algorithm, a hash algorithm; a digest (5.2.3.33);
    /// - 11: the body of a signature (5.2.3.34);
    /// - 12: a version; a fingerprint (5.2.3.35);
    /// - 13: pairs of algorithms (5.2.3.15);
    /// - 0: it doesn't have the form of its kind, or its kind is unknown.
    pub form: u8,
    /// Zeros.
    pub reserved: [u8; 3],
}
