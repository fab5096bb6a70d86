// Byte strings compared.
ghost use Rattle.std.specs.Prelude.{◌≡◌};
ghost use Rattle.octets.specs.Bytes.{bytes_eq, bytes_lt};

// Whether two byte strings are equal. Where they are as long, every byte is looked at, so that the
// time taken does not tell where they differ.
pub fn equal(a: &[u8], b: &[u8]) -> bool
    ensures value { result ≡ bytes_eq a.now b.now }
{
    if a.len() != b.len() {
        return false;
    }
    // Secret bytes are walked by their places: no iterator or search of the library's runs over them.
    let mut differ = 0u8;
    for i in 0..a.len() {
        differ |= a[i] ^ b[i];
    }
    differ == 0
}

// The same for two of one length that is known: tags, keys, commitments.
pub fn equal_fixed<const N: usize>(a: &[u8; N], b: &[u8; N]) -> bool
    ensures value { result ≡ bytes_eq a.now b.now }
{
    equal(a, b)
}

// Whether a comes before b in the order of dictionaries. It stops at the first byte that differs, so
// it is for public bytes only.
pub fn less(a: &[u8], b: &[u8]) -> bool
    ensures value { result ≡ bytes_lt a.now b.now }
{
    let both = a.len().min(b.len());
    // By places: the library's order of slices took half as long again where much is alike.
    for i in 0..both {
        if a[i] != b[i] {
            return a[i] < b[i];
        }
    }
    a.len() < b.len()
}
