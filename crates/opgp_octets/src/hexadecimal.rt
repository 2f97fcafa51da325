//! Octets as text in hexadecimal.

ghost use Rattle.std.specs.Prelude.{◌≡◌, ◌*◌, length};
ghost use Rattle.hex.specs.Hex.{encode_upper};

/// Writes the octets as upper-case digits, two an octet.
pub fn write_digits(octets: &[u8], digits: &mut [u8])
    requires { length digits.old ≡ 2 * length octets.now }
    ensures { digits.new ≡ encode_upper octets.now }
{
    match hex::encode_to_slice(octets, &mut *digits) {
        Ok(()) => digits.make_ascii_uppercase(),
        Err(_) => unreachable!(),
    }
}

/// Writes the octets as upper-case digits, two an octet, and returns the digits as text.
pub fn write_hexadecimal<'b>(octets: &[u8], digits: &'b mut [u8]) -> &'b str
    requires { length digits.old ≡ 2 * length octets.now }
    ensures { result.now ≡ encode_upper octets.now }
{
    write_digits(octets, &mut *digits);
    match str::from_utf8(digits) {
        Ok(text) => text,
        Err(_) => unreachable!(),
    }
}
