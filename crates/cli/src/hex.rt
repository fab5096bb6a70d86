// Hexadecimal digits.
ghost use Rattle.std.specs.Prelude.{◌≡◌};
ghost use Rattle.cli.specs.Hex.{digit, unhex_32};

// The value of a digit.
fn nibble(b: u8) -> Option<u8>
    ensures { result ≡ digit b }
{
    let value = char::from(b).to_digit(16)?;
    Some(value as u8)
}

// 32 bytes from 64 digits.
pub fn unhex32(digits: &[u8]) -> Option<[u8; 32]>
    ensures value { result ≡ unhex_32 digits.now }
{
    if digits.len() != 64 {
        return None;
    }
    let mut bytes = [0; 32];
    // The digits may be a key's: the loop counts to a public number, and no iterator runs over them.
    for i in 0..32usize {
        let high = nibble(digits[2 * i])?;
        let low = nibble(digits[2 * i + 1])?;
        bytes[i] = high * 16 + low;
    }
    Some(bytes)
}
