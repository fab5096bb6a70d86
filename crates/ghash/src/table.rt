// A hash key with its products by the powers of x, made once a key.
ghost use Rattle.std.specs.Prelude.{◌≡◌, ℕ, ◌<◌};
ghost use Rattle.ghash.specs.Element.{value};
ghost use Rattle.ghash.specs.Steps.{times_power};
ghost use Rattle.ghash.specs.Rows.{row_value};

use crate::element::Element;

mod times;

// Row `k` is `h` times x^k, in one word of each of the four tables. They are four arrays, so that four rows are added at
// once; with the rows in one array a product takes twice as long, or more.
#[derive(Drop)]
pub struct Table {
    h: Element,
    a: [u32; 128],
    b: [u32; 128],
    c: [u32; 128],
    d: [u32; 128],
    ghost rows: { (k : ℕ) → k < 128 → row_value a b c d k ≡ times_power k (value h) },
}
