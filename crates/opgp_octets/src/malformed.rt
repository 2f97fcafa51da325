//! What becomes of signatures that are malformed.

/// What a reader does with a signature packet whose body is no signature's; RFC 9580, 5.2.5, wants
/// malformed signatures to be passed over.
#[derive(Clone, Copy, Debug, PartialEq, Eq)]
pub enum Malformed {
    /// Refuses it with the fault of its body.
    Refuse,
    /// Keeps its octets: nothing is known of it but that it is a signature.
    Keep,
}
