// Elements in four words of 32 bits, the high one first: the form in which rows of a table are added.
ghost use Rattle.std.specs.Prelude.{◌≡◌, ◌/◌, ◌%◌, ◌^◌, ◌<◌, ◌==◌};
ghost use Rattle.octets.specs.Bits.{pick, bits_xor};
ghost use Rattle.ghash.specs.Element.{value};
ghost use Rattle.ghash.specs.Rows.{quad_value};

use crate::element::Element;

#[derive(Clone, Copy)]
pub struct Quad {
    pub a: u32,
    pub b: u32,
    pub c: u32,
    pub d: u32,
}

impl From<Element> for Quad {
    ghost from_gives = { λ v q. (q.a ≡ v.hi / 2 ^ 32) × (q.b ≡ v.hi % 2 ^ 32) × (q.c ≡ v.lo / 2 ^ 32) × (q.d ≡ v.lo % 2 ^ 32) };

    fn from(v: Element) -> Quad {
        Quad {
            a: (v.hi >> 32) as u32,
            b: (v.hi & 0xffff_ffff) as u32,
            c: (v.lo >> 32) as u32,
            d: (v.lo & 0xffff_ffff) as u32,
        }
    }
}

impl From<Quad> for Element {
    ghost from_gives = { λ q v. value v ≡ quad_value q };

    fn from(q: Quad) -> Element {
        Element {
            hi: ((q.a as u64) << 32) | q.b as u64,
            lo: ((q.c as u64) << 32) | q.d as u64,
        }
    }
}

impl Quad {
    pub const ZERO: Quad = Quad {
        a: 0,
        b: 0,
        c: 0,
        d: 0,
    };

    // The sum with `v` where the bit is 1, else the quad as it is. `Element` has the same over its own two words: one for both would be
    // over a trait of words, and longer than the two.
    pub fn add_masked(self, v: Quad, bit: u32) -> Quad
        requires { bit < 2 }
        ensures { quad_value result ≡ pick (bit == 1) (bits_xor 128 (quad_value self) (quad_value v)) (quad_value self) }
    {
        let mask = bit.wrapping_neg();
        Quad {
            a: self.a ^ (mask & v.a),
            b: self.b ^ (mask & v.b),
            c: self.c ^ (mask & v.c),
            d: self.d ^ (mask & v.d),
        }
    }
}
