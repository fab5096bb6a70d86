// Numbers of 16, 32 and 64 bits as bytes, the high one first.
ghost use Rattle.std.specs.Prelude.{◌≡◌, ℕ, ◌<◌};
ghost use Rattle.std.proofs.Common.{refl};
ghost use Rattle.std.proofs.lemmas.Bool.{ltb-true};
ghost use Rattle.octets.specs.Bytes.{to_bytes, of_bytes};

// A number that has N bytes.
pub trait Word<const N: usize>: Copy {
    ghost value: { Self → ℕ };

    fn from_bytes(bytes: &[u8; N]) -> Self
        ensures value { value result ≡ of_bytes bytes.now };

    fn to_bytes(self) -> [u8; N]
        ensures value { result ≡ to_bytes N (value self) };

    // so few that an array of them has a length
    ghost few: { N < 9223372036854775808 };
}

// One impl for each width: no macro writes an impl here.
impl Word<2> for u16 {
    ghost value = { λ n. n };

    ghost few = { ltb-true 2 9223372036854775808 refl };

    fn from_bytes(bytes: &[u8; 2]) -> u16 {
        u16::from_be_bytes(*bytes)
    }

    fn to_bytes(self) -> [u8; 2] {
        u16::to_be_bytes(self)
    }
}

impl Word<4> for u32 {
    ghost value = { λ n. n };

    ghost few = { ltb-true 4 9223372036854775808 refl };

    fn from_bytes(bytes: &[u8; 4]) -> u32 {
        u32::from_be_bytes(*bytes)
    }

    fn to_bytes(self) -> [u8; 4] {
        u32::to_be_bytes(self)
    }
}

impl Word<8> for u64 {
    ghost value = { λ n. n };

    ghost few = { ltb-true 8 9223372036854775808 refl };

    fn from_bytes(bytes: &[u8; 8]) -> u64 {
        u64::from_be_bytes(*bytes)
    }

    fn to_bytes(self) -> [u8; 8] {
        u64::to_be_bytes(self)
    }
}
