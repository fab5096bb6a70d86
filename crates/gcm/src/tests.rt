// Test case 16 of the GCM specification: a key of 256 bits, additional data, and a last block that isn't whole.
use crate::{Key, NotOpened, open, seal};
use octets::{equal, equal_fixed};
use std::test::Fail;

const KEY: &[u8; 32] =
    b"\xfe\xff\xe9\x92\x86\x65\x73\x1c\x6d\x6a\x8f\x94\x67\x30\x83\x08\xfe\xff\xe9\x92\x86\x65\x73\x1c\x6d\x6a\x8f\x94\x67\x30\x83\x08";

const NONCE: &[u8; 12] = b"\xca\xfe\xba\xbe\xfa\xce\xdb\xad\xde\xca\xf8\x88";

const AAD: &[u8; 20] =
    b"\xfe\xed\xfa\xce\xde\xad\xbe\xef\xfe\xed\xfa\xce\xde\xad\xbe\xef\xab\xad\xda\xd2";

const TEXT: &[u8; 60] =
    b"\xd9\x31\x32\x25\xf8\x84\x06\xe5\xa5\x59\x09\xc5\xaf\xf5\x26\x9a\x86\xa7\xa9\x53\x15\x34\xf7\xda\x2e\x4c\x30\x3d\x8a\x31\x8a\x72\x1c\x3c\x0c\x95\x95\x68\x09\x53\x2f\xcf\x0e\x24\x49\xa6\xb5\x25\xb1\x6a\xed\xf5\xaa\x0d\xe6\x57\xba\x63\x7b\x39";

const CIPHERTEXT: &[u8; 60] =
    b"\x52\x2d\xc1\xf0\x99\x56\x7d\x07\xf4\x7f\x37\xa3\x2a\x84\x42\x7d\x64\x3a\x8c\xdc\xbf\xe5\xc0\xc9\x75\x98\xa2\xbd\x25\x55\xd1\xaa\x8c\xb0\x8e\x48\x59\x0d\xbb\x3d\xa7\xb0\x8b\x10\x56\x82\x88\x38\xc5\xf6\x1e\x63\x93\xba\x7a\x0a\xbc\xc9\xf6\x62";

const TAG: &[u8; 16] = b"\x76\xfc\x6e\xce\x0f\x4e\x17\x68\xcd\xdf\x88\x53\xbb\x2d\x55\x1b";

#[test]
fn seals(rt: HostRuntime) -> Result<(), Fail> {
    let mut out = [0; 60];
    let tag = seal(&Key::new(KEY), NONCE, AAD, TEXT, &mut out).ok_or("as long as the text")?;
    assert!(rt; equal_fixed(&tag, TAG));
    assert!(rt; equal(&out, CIPHERTEXT));
    Ok(())
}

#[test]
fn opens(rt: HostRuntime) {
    let mut out = [0; 60];
    assert!(rt; open(&Key::new(KEY), NONCE, AAD, CIPHERTEXT, TAG, &mut out).is_ok());
    assert!(rt; equal(&out, TEXT));
}

#[test]
fn refuses_and_leaves(rt: HostRuntime) {
    let key = Key::new(KEY);
    let mut out = [7; 60];
    assert!(rt; open(&key, NONCE, &[], CIPHERTEXT, TAG, &mut out) == Err(NotOpened));
    assert!(rt; open(&key, NONCE, AAD, &[0; 59], TAG, &mut out) == Err(NotOpened));
    assert!(rt; seal(&key, NONCE, AAD, &[0; 59], &mut out).is_none());
    assert!(rt; equal(&out, &[7; 60]));
}
