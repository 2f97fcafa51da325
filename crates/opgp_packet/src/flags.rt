//! The names of flags in a signature's subpackets.

ghost use Rattle.std.specs.Prelude.{◌≡◌, map};
ghost use Rattle.opgp_packet.specs.Flags.{feature_rows, flag_shown, key_flag_rows, server_rows};

/// A flag that has a name: a bit of the first octet of a subpacket's data (RFC 9580, 5.2.3.25,
/// 5.2.3.29, 5.2.3.32).
#[derive(Clone, Copy)]
pub struct Flag {
    /// The octet in which this bit alone is set.
    pub bit: u8,
    /// The name.
    pub name: &'static str,
}

/// Flags, lowest first: the bit of each and its name.
macro_rules! flags {
    ($($bit:literal $name:literal;)*) => {
        &[$(Flag { bit: $bit, name: $name },)*]
    };
}

/// What a key is for (RFC 9580, 5.2.3.29): the flags that have a name, lowest first.
pub fn key_flags() -> &'static [Flag]
    ensures { map flag_shown result.now ≡ key_flag_rows }
{
    flags! {
        1 "certify";
        2 "sign";
        4 "encrypt-communications";
        8 "encrypt-storage";
        16 "split";
        32 "authenticate";
        128 "group";
    }
}

/// What an implementation supports (RFC 9580, 5.2.3.32): the features that have a name.
pub fn features() -> &'static [Flag]
    ensures { map flag_shown result.now ≡ feature_rows }
{
    flags! {
        1 "seipd1";
        8 "seipd2";
    }
}

/// What a key server is asked for (RFC 9580, 5.2.3.25): the preferences that have a name.
pub fn key_server_preferences() -> &'static [Flag]
    ensures { map flag_shown result.now ≡ server_rows }
{
    flags! {
        128 "no-modify";
    }
}
