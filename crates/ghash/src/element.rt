// Elements in two words, and as 16 bytes.
ghost use Rattle.std.specs.Prelude.{◌≡◌, ◌/◌, ◌%◌, ◌<◌, ◌==◌};
ghost use Rattle.octets.specs.Bits.{pick, bits_xor, pow2};
ghost use Rattle.octets.specs.Bytes.{to_bytes, of_bytes};
ghost use Rattle.ghash.specs.Element.{value};

use std::ops::Add;

// The high bit of `hi` is the coefficient of 1, the low bit of `lo` that of x^127.
#[derive(Clone, Copy)]
pub struct Element {
    pub hi: u64,
    pub lo: u64,
}

impl Element {
    pub const ZERO: Element = Element { hi: 0, lo: 0 };

    pub fn from_bytes(bytes: &[u8; 16]) -> Element
        ensures value { value result ≡ of_bytes bytes.now }
    {
        let number = u128::from_be_bytes(*bytes);
        Element {
            hi: (number >> 64) as u64,
            lo: (number & 0xffff_ffff_ffff_ffff) as u64,
        }
    }

    pub fn to_bytes(self) -> [u8; 16]
        ensures value { result ≡ to_bytes 16 (value self) }
    {
        let number = ((self.hi as u128) << 64) | self.lo as u128;
        number.to_be_bytes()
    }

    // One bit, counted from the low end.
    pub(crate) fn bit(self, n: u32) -> u64
        requires { n < 128 }
        ensures { result ≡ value self / pow2 n % 2 }
    {
        if n < 64 {
            (self.lo >> n) & 1
        } else {
            (self.hi >> (n - 64)) & 1
        }
    }

    // The sum with `v` where the bit is 1, else the element as it is.
    pub(crate) fn add_masked(self, v: Element, bit: u64) -> Element
        requires { bit < 2 }
        ensures { value result ≡ pick (bit == 1) (bits_xor 128 (value self) (value v)) (value self) }
    {
        let mask = bit.wrapping_neg();
        self + Element {
            hi: mask & v.hi,
            lo: mask & v.lo,
        }
    }
}

// The sum of two elements; their difference as well.
impl Add for Element {
    type Output = Element;

    ghost add_gives = { λ a b sum. value sum ≡ bits_xor 128 (value a) (value b) };

    fn add(self, other: Element) -> Element {
        Element {
            hi: self.hi ^ other.hi,
            lo: self.lo ^ other.lo,
        }
    }
}
