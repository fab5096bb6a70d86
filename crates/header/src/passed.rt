// What is handed on of a request that passed its checks: numbers, for callers that hold the request, so no type's fact ties them to it.

// of a header that isn't refused: its id by value, how long its pairs' bytes are, and how long it is itself, without its tag
#[derive(Clone, Copy)]
pub struct CheckedHeader {
    pub id: [u8; 32],
    pub pairs_len: usize,
    pub header_len: usize,
}

// of a request that isn't refused: its key by value, and what its header's check handed on
#[derive(Clone, Copy)]
pub struct Checked {
    pub key: [u8; 32],
    pub header: CheckedHeader,
}
