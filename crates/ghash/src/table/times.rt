// The product by a table's element: the sum of the rows at which the other factor has a 1. Every row is read, and masked.
ghost use Rattle.std.specs.Prelude.{◌≡◌, ◌+◌, ◌-◌, ◌<◌, ◌≤◌};
ghost use Rattle.ghash.specs.Field.{product, product_steps};
ghost use Rattle.ghash.specs.Element.{value};
ghost use Rattle.ghash.specs.Steps.{times_power};
ghost use Rattle.ghash.specs.Rows.{quad_value};
ghost use Rattle.ghash.specs.Table.{hash_key_of};

use crate::element::Element;
use crate::field::times_x;
use crate::quad::Quad;
use crate::table::Table;

impl Table {
    pub fn new(h: Element) -> Table
        ensures value { hash_key_of result ≡ value h }
    {
        let mut a = [0u32; 128];
        let mut b = [0u32; 128];
        let mut c = [0u32; 128];
        let mut d = [0u32; 128];
        let mut v = h;
        // By place, into four arrays at once.
        for i in 0..128usize {
            let q = Quad::from(v);
            a[i] = q.a;
            b[i] = q.b;
            c[i] = q.c;
            d[i] = q.d;
            v = times_x(v);
        }
        Table { h, a, b, c, d }
    }

    // `x` times the table's element.
    pub fn times(&self, x: Element) -> Element
        ensures value { value result ≡ product (value x) (hash_key_of self.now) }
    {
        let q = Quad::from(x);
        let sum_a = self.add_rows(q.a, 0, Quad::ZERO);
        let sum_b = self.add_rows(q.b, 32, sum_a);
        let sum_c = self.add_rows(q.c, 64, sum_b);
        Element::from(self.add_rows(q.d, 96, sum_c))
    }

    fn row(&self, i: usize) -> Quad
        requires { i < 128 }
        ensures { quad_value result ≡ times_power i (hash_key_of self.now) }
    {
        Quad {
            a: self.a[i],
            b: self.b[i],
            c: self.c[i],
            d: self.d[i],
        }
    }

    // `sum` and the 32 rows from `from` on at which `word` has a 1, its high bit first.
    fn add_rows(&self, word: u32, from: usize, sum: Quad) -> Quad
        requires { from ≤ 96 }
        ensures { quad_value result ≡ product_steps 32 word (times_power from (hash_key_of self.now)) (quad_value sum) }
    {
        let mut s = sum;
        // By place: every row is read, whatever the word, which is secret.
        for j in 0..32u32 {
            s = s.add_masked(self.row(from + j as usize), (word >> (31 - j)) & 1);
        }
        s
    }
}
