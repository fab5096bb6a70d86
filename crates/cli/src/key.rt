// The key in a key file.
ghost use Rattle.std.specs.Prelude.{◌≡◌};
ghost use Rattle.cli.specs.Hex.{key_of};

use crate::hex::unhex32;

// 32 bytes as they are, or 64 hexadecimal digits, with a line feed after them or without.
pub fn parse_key(bytes: &[u8]) -> Option<[u8; 32]>
    ensures value { result ≡ key_of bytes.now }
{
    if let Ok(key) = <[u8; 32]>::try_from(bytes) {
        return Some(key);
    }
    // Only the byte behind 64 digits is compared: `strip_suffix` would compare a digit of the key where there is none.
    if bytes.len() == 65 && bytes[64] == b'\n' {
        return unhex32(&bytes[0..64]);
    }
    unhex32(bytes)
}

#[cfg(test)]
mod tests {
    use super::*;
    use std::test::Fail;

    const DIGITS: &[u8; 64] = b"000102030405060708090a0b0c0d0e0f101112131415161718191A1B1C1D1E1F";

    #[test]
    fn keys(rt: HostRuntime) -> Result<(), Fail> {
        let raw = parse_key(b"0123456789abcdefghijklmnopqrstuv").ok_or("32 bytes")?;
        assert!(rt; raw[0] == b'0' && raw[31] == b'v');
        let key = parse_key(DIGITS).ok_or("64 digits")?;
        assert!(rt; key[0] == 0 && key[10] == 10 && key[26] == 0x1a && key[31] == 0x1f);
        Ok(())
    }

    #[test]
    fn no_keys(rt: HostRuntime) {
        assert!(rt; parse_key(b"").is_none());
        assert!(rt; parse_key(b"0123456789abcdefghijklmnopqrstu").is_none());
        assert!(rt;
            parse_key(b"000102030405060708090a0b0c0d0e0f101112131415161718191a1b1c1d1e1",).is_none()
        );
        assert!(rt;
            parse_key(
                b"000102030405060708090a0b0c0d0e0f101112131415161718191a1b1c1d1eg0",
            ).is_none()
        );
        assert!(rt;
            parse_key(
                b"000102030405060708090a0b0c0d0e0f101112131415161718191a1b1c1d1e1f\r",
            ).is_none()
        );
    }
}
