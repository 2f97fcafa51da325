//! A row of the table of packets.

/// A packet of a keyring. Its body is in the table's octets, from `at`.
#[repr(C)]
#[derive(Clone, Copy)]
pub struct PacketRow {
    /// The number of its certificate; `NONE` for a filler before the first.
    pub certificate: u64,
    /// The number of the component that it begins, or that it is on; `NONE` for a primary key,
    /// and for what is on that.
    pub component: u64,
    /// Its number among all packets that follow the key or component; `NONE` for a primary key, and
    /// for what begins a component.
    pub hang: u64,
    /// Where its body begins in the octets.
    pub at: u64,
    /// How many octets its body has.
    pub size: u64,
    /// Its type: 2 signature, 6 public key, 13 user ID, 14 public subkey, 17 user attribute.
    pub kind: u8,
    /// Zeros.
    pub reserved: [u8; 7],
}
