// What a request says, over bytes that are lent.

// one pair of the encryption context
#[derive(Clone, Copy, Debug, PartialEq, Eq)]
pub struct Pair<'n, 'v> {
    pub name: &'n [u8],
    pub value: &'v [u8],
}

// the data key as some provider encrypted it
#[derive(Clone, Copy, Debug, PartialEq, Eq)]
pub struct EncryptedDataKey<'p, 'i, 'c> {
    pub provider_id: &'p [u8],
    pub provider_info: &'i [u8],
    pub ciphertext: &'c [u8],
}

// what a header says but for the commitment; id is the message id, for one message only
#[derive(Clone, Copy)]
pub struct HeaderRequest<'i, 'c, 'n, 'v, 'e, 'p, 'o, 'w> {
    pub id: &'i [u8],
    pub context: &'c [Pair<'n, 'v>],
    pub encrypted_data_keys: &'e [EncryptedDataKey<'p, 'o, 'w>],
    pub frame_length: u32,
}

// a message to be sealed; key is the data key
#[derive(Clone, Copy)]
pub struct Request<'k, 'i, 'c, 'n, 'v, 'e, 'p, 'o, 'w, 't> {
    pub key: &'k [u8],
    pub header: HeaderRequest<'i, 'c, 'n, 'v, 'e, 'p, 'o, 'w>,
    pub text: &'t [u8],
}
