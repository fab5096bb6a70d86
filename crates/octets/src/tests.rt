// The boundaries: nothing, just enough, one too few, and places past the end.
use crate::{Writer, cut, cut_number, equal, equal_fixed, less, put, put_number};
use std::test::Fail;

#[test]
fn cuts_what_is_there(rt: HostRuntime) -> Result<(), Fail> {
    let (front, rest) = cut(&[1, 2, 3], 3).ok_or("three of three")?;
    assert!(rt; equal(front, &[1, 2, 3]) && rest.is_empty());
    assert!(rt; cut(&[1, 2, 3], 4).is_none());
    Ok(())
}

#[test]
fn reads_the_high_byte_first(rt: HostRuntime) -> Result<(), Fail> {
    let (n, rest) = cut_number::<u16, _>(&[1, 2, 3]).ok_or("two of three")?;
    assert!(rt; n == 258 && equal(rest, &[3]));
    assert!(rt; cut_number::<u32, _>(&[0, 0, 0]).is_none());
    Ok(())
}

#[test]
fn puts_what_fits(rt: HostRuntime) {
    let mut out = [9; 4];
    assert_eq!(rt; put_number(&mut out, 1, 258u16), Some(3));
    assert!(rt; equal(&out, &[9, 1, 2, 9]));
}

#[test]
fn leaves_what_does_not_fit(rt: HostRuntime) {
    let mut out = [9; 2];
    assert_eq!(rt; put(&mut out, 18446744073709551615, &[5]), None);
    assert!(rt; equal(&out, &[9, 9]));
}

#[test]
fn writes_one_after_another(rt: HostRuntime) {
    let mut out = [9; 5];
    let mut to = Writer::new(&mut out);
    assert!(rt; to.put(&[1]).is_some() && to.put_number(258u16).is_some());
    assert!(rt; to.put_number(7u32).is_none() && to.put(&[4]).is_some());
    assert!(rt; equal(&out, &[1, 1, 2, 4, 9]));
}

#[test]
fn compares_every_byte(rt: HostRuntime) {
    assert!(rt; !equal_fixed(&[1, 2, 3], &[9, 2, 3]) && !equal(&[1], &[1, 0]));
    assert!(rt; less(&[1, 255], &[2]) && less(&[], &[0]));
    assert!(rt; !less(&[1, 2], &[1, 2]) && !less(&[1, 2], &[1]));
}
