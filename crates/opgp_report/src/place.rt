//! The place of a signature in a keyring.

/// The place of a signature in a keyring; all numbers count from 0.
#[derive(Clone, Copy, Debug, PartialEq, Eq)]
pub struct Place {
    /// The number of its certificate.
    pub certificate: usize,
    /// The number of the component that it is on; None for the primary key.
    pub component: Option<usize>,
    /// Its number among all packets that follow the key or component, fillers included.
    pub hang: usize,
    /// Its number among the signatures that are embedded in that packet; None for the packet's own
    /// signature.
    pub nested: Option<usize>,
}
