// A small header byte for byte, and requests at the edges of what is refused.
use crate::checks::{check, check_header, text_fits};
use crate::request::{EncryptedDataKey, HeaderRequest, Pair, Request};
use crate::write::write_header;
use octets::equal;

fn pair<'n, 'v>(name: &'n [u8], value: &'v [u8]) -> Pair<'n, 'v> {
    Pair { name, value }
}

fn data_key<'p, 'i, 'c>(
    provider_id: &'p [u8],
    provider_info: &'i [u8],
    ciphertext: &'c [u8],
) -> EncryptedDataKey<'p, 'i, 'c> {
    EncryptedDataKey {
        provider_id,
        provider_info,
        ciphertext,
    }
}

// the number of a header's refusal, if it is refused
fn refusal(header: HeaderRequest) -> Option<u8> {
    Some(check_header(header).err()?.number())
}

// the same where all but one part is fine
fn context_refusal(context: &[Pair]) -> Option<u8> {
    let keys = [data_key(b"x", b"y", b"z")];
    refusal(HeaderRequest {
        id: &[7; 32],
        context,
        encrypted_data_keys: &keys,
        frame_length: 4,
    })
}

fn two_names(first: &[u8], second: &[u8]) -> Option<u8> {
    let context = [pair(first, b"1"), pair(second, b"2")];
    context_refusal(&context)
}

fn one_pair(name: &[u8], value: &[u8]) -> Option<u8> {
    let context = [pair(name, value)];
    context_refusal(&context)
}

fn some_data_keys(
    count: usize,
    provider_id: &[u8],
    provider_info: &[u8],
    ciphertext: &[u8],
) -> Option<u8> {
    let keys = [data_key(provider_id, provider_info, ciphertext)];
    let some = if count == 0 { &keys[0..0] } else { &keys[0..1] };
    refusal(HeaderRequest {
        id: &[7; 32],
        context: &[],
        encrypted_data_keys: some,
        frame_length: 4,
    })
}

// the number of the refusal of a request whose context has one pair or a second of the same name
fn request_refusal(key: &[u8], id: &[u8], frame_length: u32, twice: bool) -> Option<u8> {
    let context = [pair(b"a", b"1"), pair(b"a", b"1")];
    let keys = [data_key(b"x", b"y", b"z")];
    let pairs = if twice {
        &context[0..2]
    } else {
        &context[0..1]
    };
    let header = HeaderRequest {
        id,
        context: pairs,
        encrypted_data_keys: &keys,
        frame_length,
    };
    let request = Request {
        key,
        header,
        text: b"text",
    };
    Some(check(request).err()?.number())
}

#[test]
fn small_header(rt: HostRuntime) {
    let context = [pair(b"on", b"p1")];
    let keys = [data_key(b"x", b"y", b"z")];
    let header = HeaderRequest {
        id: &[7; 32],
        context: &context,
        encrypted_data_keys: &keys,
        frame_length: 4,
    };
    let mut few = [255; 94];
    assert_eq!(rt; write_header(header, &[9; 32], &mut few).is_ok(), false);
    assert_eq!(rt; equal(&few, &[255; 94]), true);
    let mut out = [255; 100];
    assert_eq!(rt; write_header(header, &[9; 32], &mut out).ok(), Some(95));
    assert_eq!(rt; equal(&out[0..3], &[2, 4, 120]), true);
    assert_eq!(rt; equal(&out[3..35], &[7; 32]), true);
    assert_eq!(rt;
        equal(&out[35..47], b"\x00\x0a\x00\x01\x00\x02on\x00\x02p1"),
        true
    );
    assert_eq!(rt;
        equal(&out[47..58], b"\x00\x01\x00\x01x\x00\x01y\x00\x01z"),
        true
    );
    assert_eq!(rt; equal(&out[58..63], &[2, 0, 0, 0, 4]), true);
    assert_eq!(rt; equal(&out[63..95], &[9; 32]), true);
    assert_eq!(rt; equal(&out[95..100], &[255; 5]), true);
    let none = HeaderRequest {
        id: &[7; 32],
        context: &[],
        encrypted_data_keys: &keys,
        frame_length: 4,
    };
    assert_eq!(rt; write_header(none, &[9; 32], &mut out).ok(), Some(85));
    assert_eq!(rt; equal(&out[35..37], &[0, 0]), true);
}

#[test]
fn refused_headers(rt: HostRuntime) {
    let long = [1; 65_536];
    assert_eq!(rt; two_names(b"a", b"b"), None);
    assert_eq!(rt; two_names(b"a", b"ab"), None);
    assert_eq!(rt; two_names(b"ab", b"a"), Some(3));
    assert_eq!(rt; two_names(b"a", b"a"), Some(3));
    assert_eq!(rt; one_pair(b"", &long[0..65_529]), None);
    assert_eq!(rt; one_pair(b"", &long[0..65_530]), Some(3));
    assert_eq!(rt; one_pair(&long, b""), Some(3));
    assert_eq!(rt; some_data_keys(0, b"", b"", b""), Some(4));
    assert_eq!(rt; some_data_keys(1, b"", b"", b""), None);
    assert_eq!(rt; some_data_keys(1, b"x", b"y", &long[0..65_535]), None);
    assert_eq!(rt; some_data_keys(1, b"x", b"y", &long), Some(4));
    assert_eq!(rt; some_data_keys(1, b"x", &long, b"z"), Some(4));
    assert_eq!(rt; some_data_keys(1, &long, b"y", b"z"), Some(4));
}

#[test]
fn refused_requests(rt: HostRuntime) {
    assert_eq!(rt; request_refusal(&[1; 32], &[7; 32], 1, false), None);
    assert_eq!(rt;
        request_refusal(&[1; 32], &[7; 32], 4_294_967_295, false),
        None
    );
    assert_eq!(rt; request_refusal(&[1; 31], &[7; 32], 1, false), Some(2));
    assert_eq!(rt; request_refusal(&[1; 32], &[7; 33], 1, false), Some(2));
    assert_eq!(rt; request_refusal(&[1; 32], &[7; 32], 0, true), Some(2));
    assert_eq!(rt; request_refusal(&[1; 32], &[7; 32], 1, true), Some(3));
    assert_eq!(rt; text_fits(4_294_967_295, 1), true);
    assert_eq!(rt; text_fits(4_294_967_296, 1), false);
    assert_eq!(rt; text_fits(9_223_372_036_854_775_807, 4_294_967_295), true);
    assert_eq!(rt; text_fits(9_223_372_036_854_775_808, 4_294_967_295), false);
}
