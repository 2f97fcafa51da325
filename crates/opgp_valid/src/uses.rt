//! What keys are used for.

ghost use Rattle.std.specs.Prelude.{◌≡◌};

/// What a key may be used for (RFC 9580, 5.2.3.29).
#[derive(Clone, Copy, Debug, PartialEq, Eq)]
pub struct Uses {
    /// It may certify keys: flag 01.
    pub certify: bool,
    /// It may sign data: flag 02.
    pub sign: bool,
    /// It may encrypt: flag 04 or 08.
    pub encrypt: bool,
    /// It may authenticate: flag 20.
    pub authenticate: bool,
}

impl Uses {
    ghost use Rattle.opgp_valid.specs.Uses.{all_uses, both, has_use, no_use, uses_of};

    /// Every use.
    pub const ALL: Uses = Uses {
        certify: true,
        sign: true,
        encrypt: true,
        authenticate: true,
    };

    /// No use.
    pub const NONE: Uses = Uses {
        certify: false,
        sign: false,
        encrypt: false,
        authenticate: false,
    };

    /// Whether there is some use.
    pub fn has_use(self) -> bool
        ensures { result ≡ has_use self }
    {
        self.certify || self.sign || self.encrypt || self.authenticate
    }

    /// The uses that both allow.
    pub fn and(self, other: Uses) -> Uses
        ensures { result ≡ both self other }
    {
        Uses {
            certify: self.certify && other.certify,
            sign: self.sign && other.sign,
            encrypt: self.encrypt && other.encrypt,
            authenticate: self.authenticate && other.authenticate,
        }
    }

    /// The uses that the first octet of key flags allows (RFC 9580, 5.2.3.29).
    pub fn of(flags: u8) -> Uses
        ensures { result ≡ uses_of flags }
    {
        Uses {
            certify: flags % 2 == 1,
            sign: flags / 2 % 2 == 1,
            encrypt: flags / 4 % 2 == 1 || flags / 8 % 2 == 1,
            authenticate: flags / 32 % 2 == 1,
        }
    }
}
