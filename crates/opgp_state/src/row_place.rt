//! Where the signature of a row is among the packets of a keyring.

/// Where the signature of a row is; both numbers count from 0.
#[derive(Clone, Copy, Debug, PartialEq, Eq)]
pub struct RowPlace {
    /// The number of its packet among all packets of the keyring, fillers included. That of an
    /// embedded signature is the number of the packet that it is embedded in.
    pub packet: usize,
    /// The number among the user IDs of its certificate of the one that it is on; None if it is on
    /// none.
    pub user_id: Option<usize>,
}
