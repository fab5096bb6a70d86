// The product of two elements, bit by bit.
ghost use Rattle.std.specs.Prelude.{◌≡◌};
ghost use Rattle.ghash.specs.Field.{product};
ghost use Rattle.ghash.specs.Element.{value};
ghost use Rattle.ghash.specs.Steps.{times_x};

use crate::element::Element;

// The polynomial that products are reduced by.
const REDUCTION: Element = Element {
    hi: 0xe100_0000_0000_0000,
    lo: 0,
};

// `v` times x: one bit down, and the polynomial where a bit falls off.
pub fn times_x(v: Element) -> Element
    ensures { value result ≡ times_x (value v) }
{
    let half = Element {
        hi: v.hi >> 1,
        lo: (v.lo >> 1) | (v.hi << 63),
    };
    half.add_masked(REDUCTION, v.lo & 1)
}

pub fn product(x: Element, y: Element) -> Element
    ensures value { value result ≡ product (value x) (value y) }
{
    let mut sum = Element::ZERO;
    let mut v = y;
    // By number: an element has no parts to go through, and all 128 bits are looked at.
    for i in 0..128u32 {
        sum = sum.add_masked(v, x.bit(127 - i));
        v = times_x(v);
    }
    sum
}
