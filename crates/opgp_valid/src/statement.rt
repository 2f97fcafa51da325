//! What a signature of a certificate says, and what was found of it.

ghost use Rattle.std.specs.Prelude.{◌≡◌};

use crate::doubt::Doubt;
use crate::uses::Uses;
use opgp_octets::SignatureType;

/// Whose key made a signature of a certificate. What other keys say doesn't count.
#[derive(Clone, Copy, Debug, PartialEq, Eq)]
pub enum Author {
    /// The primary key of the certificate.
    Primary,
    /// A key that the certificate names as one that may revoke its keys (RFC 9580, 5.2.3.23).
    Revoker,
}

/// From when a signature counts, and how long.
#[derive(Clone, Copy, Debug, PartialEq, Eq)]
pub struct Life {
    /// When it was made, in seconds since 1970 (RFC 9580, 5.2.3.11).
    pub made: u32,
    /// After how many seconds it expires; 0 for never (5.2.3.18).
    pub lasts: u32,
}

impl Life {
    ghost use Rattle.opgp_valid.specs.Statement.{lives};

    /// Whether it has begun at this time, and hasn't ended.
    pub fn lives(&self, at: u64) -> bool
        ensures { result ≡ lives at self.now }
    {
        let made = u64::from(self.made);
        made <= at && (self.lasts == 0 || at < made + u64::from(self.lasts))
    }
}

/// A signature of a certificate that is good by arithmetic, over what signatures of its type are
/// made over: where it is, who made it, and what its hashed area says.
#[derive(Clone, Copy)]
pub struct Statement {
    /// Its type (RFC 9580, 5.2.1).
    pub kind: SignatureType,
    /// The number of the component that it is on; None for the primary key.
    pub component: Option<usize>,
    /// Whether that is a user ID.
    pub is_on_user_id: bool,
    /// Its number among all packets that follow the key or component, fillers included.
    pub hang: usize,
    /// Whose key made it.
    pub author: Author,
    /// Nothing critical in it is unknown (5.2.3.7).
    pub is_understood: bool,
    /// Why it isn't good, if it isn't: the first that holds.
    pub doubt: Option<Doubt>,
    /// From when it counts, and how long; None if it states no time when it was made. One that
    /// states several is a statement for each of them, and none of these is good.
    pub life: Option<Life>,
    /// After how many seconds from its creation the key expires; 0 for never (5.2.3.13).
    pub key_lasts: u32,
    /// Whether it has key flags (5.2.3.29).
    pub has_flags: bool,
    /// What its key flags let the key be used for: everything if it has none.
    pub uses: Uses,
    /// Whether it says that its user ID is the primary one (5.2.3.27).
    pub is_main: bool,
    /// Whether it is a certification that the primary key has revoked: the revocation is on the
    /// same user ID or attribute, and isn't older (5.2.1.13).
    pub is_revoked: bool,
    /// The life of the signature that is embedded in it, of several in the first, if that is good
    /// and by the subkey (5.2.1.9, 5.2.3.34).
    pub back: Option<Life>,
    /// The code of the reason for a revocation (5.2.3.31).
    pub reason: Option<u8>,
}

impl Statement {
    ghost use Rattle.opgp_valid.specs.Statement.{end_of, has_back, is_alive, is_good};

    /// Whether it is good: the policy relies on its hash algorithm and on its key, which is no
    /// younger than it is, it states one creation time, and its hashed subpackets have the form of
    /// their kinds.
    pub fn is_good(&self) -> bool
        ensures { result ≡ is_good self.now }
    {
        self.doubt.is_none()
    }

    /// Whether it counts at this time.
    pub fn is_alive(&self, at: u64) -> bool
        ensures { result ≡ is_alive at self.now }
    {
        match self.life {
            Some(life) => life.lives(at),
            None => false,
        }
    }

    /// Whether a good signature by the subkey is embedded in it that counts at this time.
    pub fn has_back(&self, at: u64) -> bool
        ensures { result ≡ has_back at self.now }
    {
        match self.back {
            Some(life) => life.lives(at),
            None => false,
        }
    }

    /// When it lets a key expire that was created then, in seconds since 1970; None for never.
    pub fn end_of(&self, created: u32) -> Option<u64>
        ensures { result ≡ end_of created self.now }
    {
        if self.key_lasts == 0 {
            None
        } else {
            Some(u64::from(created) + u64::from(self.key_lasts))
        }
    }
}
