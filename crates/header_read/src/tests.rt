// A small header read back, and each way of being no header.
use crate::read::read_header;
use header::{EncryptedDataKey, HeaderRequest, Pair, write_header};
use octets::{cut, equal, put};
use std::test::Fail;

// whether a message of these parts, with zeros for id, commitment and tag, begins with a header; none if there is no room for it
fn reads(start: &[u8], context: &[u8], data_keys: &[u8], framing: &[u8]) -> Option<bool> {
    let mut out = [0; 200];
    let mut end = 0;
    for part in [start, &[0; 32], context, data_keys, framing, &[0; 48]] {
        end = put(&mut out, end, part)?;
    }
    let (message, _) = cut(&out, end)?;
    Some(read_header(message).is_some())
}

const START: &[u8] = &[2, 4, 120];

const PAIR: &[u8] = b"\x00\x0a\x00\x01\x00\x02on\x00\x02p1";

const KEY: &[u8] = b"\x00\x01\x00\x01x\x00\x01y\x00\x01z";

const FRAMING: &[u8] = &[2, 0, 0, 0, 4];

#[test]
fn parts(rt: HostRuntime) {
    assert_eq!(rt; reads(START, PAIR, KEY, FRAMING), Some(true));
    assert_eq!(rt; reads(START, b"\x00\x00", KEY, FRAMING), Some(true));
    assert_eq!(rt;
        reads(
            START,
            b"\x00\x0e\x00\x02\x00\x01a\x00\x01x\x00\x01b\x00\x01y",
            KEY,
            FRAMING,
        ),
        Some(true)
    );
    assert_eq!(rt; reads(&[1, 4, 120], PAIR, KEY, FRAMING), Some(false));
    assert_eq!(rt; reads(&[2, 3, 120], PAIR, KEY, FRAMING), Some(false));
    assert_eq!(rt; reads(&[2, 4, 119], PAIR, KEY, FRAMING), Some(false));
    assert_eq!(rt;
        reads(START, b"\x00\x02\x00\x00", KEY, FRAMING),
        Some(false)
    );
    assert_eq!(rt; reads(START, b"\x00\x01\x00", KEY, FRAMING), Some(false));
    assert_eq!(rt;
        reads(
            START,
            b"\x00\x0b\x00\x01\x00\x02on\x00\x02p1\x00",
            KEY,
            FRAMING,
        ),
        Some(false)
    );
    assert_eq!(rt;
        reads(
            START,
            b"\x00\x0e\x00\x02\x00\x01b\x00\x01x\x00\x01a\x00\x01y",
            KEY,
            FRAMING,
        ),
        Some(false)
    );
    assert_eq!(rt;
        reads(
            START,
            b"\x00\x0e\x00\x02\x00\x01a\x00\x01x\x00\x01a\x00\x01y",
            KEY,
            FRAMING,
        ),
        Some(false)
    );
    assert_eq!(rt; reads(START, PAIR, b"\x00\x00", FRAMING), Some(false));
    assert_eq!(rt; reads(START, PAIR, KEY, &[1, 0, 0, 0, 4]), Some(false));
    assert_eq!(rt; reads(START, PAIR, KEY, &[2, 0, 0, 0, 0]), Some(false));
}

#[test]
fn read_back(rt: HostRuntime) -> Result<(), Fail> {
    let context = [Pair {
        name: b"on",
        value: b"p1",
    }];
    let keys = [EncryptedDataKey {
        provider_id: b"x",
        provider_info: b"y",
        ciphertext: b"z",
    }];
    let header = HeaderRequest {
        id: &[7; 32],
        context: &context,
        encrypted_data_keys: &keys,
        frame_length: 4,
    };
    let mut message = [5; 113];
    assert_eq!(rt; write_header(header, &[9; 32], &mut message).ok(), Some(95));
    for n in 0..111 {
        assert_eq!(rt; read_header(&message[..n]).is_some(), false);
    }
    let read = read_header(&message).ok_or("no header")?;
    assert_eq!(rt; equal(read.tag, &[5; 16]), true);
    assert_eq!(rt; equal(read.rest, &[5; 2]), true);
    let seen = read.header;
    assert_eq!(rt; equal(seen.id, &[7; 32]), true);
    assert_eq!(rt; equal(seen.commitment, &[9; 32]), true);
    assert_eq!(rt; seen.frame_length, 4);
    assert_eq!(rt; seen.context.pairs().count(), 1);
    for pair in seen.context.pairs() {
        assert_eq!(rt; equal(pair.name, b"on"), true);
        assert_eq!(rt; equal(pair.value, b"p1"), true);
    }
    assert_eq!(rt; seen.encrypted_data_keys.data_keys().count(), 1);
    for key in seen.encrypted_data_keys.data_keys() {
        assert_eq!(rt; equal(key.provider_id, b"x"), true);
        assert_eq!(rt; equal(key.provider_info, b"y"), true);
        assert_eq!(rt; equal(key.ciphertext, b"z"), true);
    }
    Ok(())
}
