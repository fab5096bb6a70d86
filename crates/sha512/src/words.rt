// The functions of SHA-512 on words.
// The standard's four sums keep their names: shared ones would take three numbers at each call.
ghost use Rattle.std.specs.Prelude.{◌≡◌};
ghost use Rattle.sha512.specs.Words.{big_sigma0, big_sigma1, small_sigma0, small_sigma1, choose, majority};

pub(crate) fn big_sigma0(a: u64) -> u64
    ensures { result ≡ big_sigma0 a }
{
    a.rotate_right(28) ^ a.rotate_right(34) ^ a.rotate_right(39)
}

pub(crate) fn big_sigma1(a: u64) -> u64
    ensures { result ≡ big_sigma1 a }
{
    a.rotate_right(14) ^ a.rotate_right(18) ^ a.rotate_right(41)
}

pub(crate) fn small_sigma0(a: u64) -> u64
    ensures { result ≡ small_sigma0 a }
{
    a.rotate_right(1) ^ a.rotate_right(8) ^ (a >> 7)
}

pub(crate) fn small_sigma1(a: u64) -> u64
    ensures { result ≡ small_sigma1 a }
{
    a.rotate_right(19) ^ a.rotate_right(61) ^ (a >> 6)
}

pub(crate) fn choose(e: u64, f: u64, g: u64) -> u64
    ensures { result ≡ choose e f g }
{
    (e & f) ^ (!e & g)
}

pub(crate) fn majority(a: u64, b: u64, c: u64) -> u64
    ensures { result ≡ majority a b c }
{
    (a & b) ^ (a & c) ^ (b & c)
}
