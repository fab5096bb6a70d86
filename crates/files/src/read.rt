// Bytes from files.
ghost use Rattle.std.specs.Prelude.{◌≡◌, ◌<◌, ◌≤◌, length, take, IfSome, IfOk, OnErr, vec_len};
ghost use Rattle.std.specs.Io.KnownBytes.{Consumes, IsAtEnd, Keeps};

use std::fs::File;
use std::io::Read;
use std::{fs, io};

// One read, made again where a signal interrupts it; so many times at most, since nothing says that signals end.
fn read_some<R: Read>(from: &mut R, buf: &mut [u8]) -> io::Result<usize>
    ensures bound { IfOk result (λ n. n ≤ length buf.new) }
    ensures bytes { IfOk result (λ n. Consumes (R.remaining from.old) (R.remaining from.new) (take n buf.new)) }
    ensures end { IfOk result (λ n. n ≡ 0 → 0 < length buf.old → IsAtEnd (R.remaining from.new)) }
{
    for _ in 0..u64::MAX {
        match from.read(buf) {
            Err(error) if error.kind() == io::ErrorKind::Interrupted => {}
            answer => return answer,
        }
    }
    Err(io::Error::from(io::ErrorKind::Interrupted))
}

// Reads until buf is full or nothing more comes, and answers how many bytes came.
pub fn read_full<R: Read>(from: &mut R, buf: &mut [u8]) -> io::Result<usize>
    ensures bound { IfOk result (λ n. n ≤ length buf.new) }
    ensures bytes { IfOk result (λ n. Consumes (R.remaining from.old) (R.remaining from.new) (take n buf.new)) }
    ensures end { IfOk result (λ n. n < length buf.new → IsAtEnd (R.remaining from.new)) }
{
    let mut at = 0;
    // By a place in buf: of a rest that is walked along nothing is known once it is given back.
    while at < buf.len() {
        let n = read_some(from, &mut buf[at..])?;
        if n == 0 {
            break;
        }
        at += n;
    }
    Ok(at)
}

// The first bytes of a file, as many as there are and buf has room for.
pub fn read_start(rt: &HostRuntime, path: &str, buf: &mut [u8]) -> io::Result<usize>
    ensures bound { IfOk result (λ n. n ≤ length buf.new) }
{
    let mut file = File::open(rt, path)?;
    read_full(&mut file, buf)
}

// A file's bytes; None where there are more than limit.
pub fn read_whole(rt: &HostRuntime, path: &str, limit: u32) -> io::Result<Option<Vec<u8>>>
    ensures bound { IfOk result (λ o. IfSome o (λ v. vec_len v ≤ limit)) }
{
    let mut bytes = Vec::new(rt.alloc());
    let file = File::open(rt, path)?;
    let mut start = file.take(limit as u64 + 1);
    start.read_to_end(&mut bytes)?;
    if bytes.len() > limit as usize {
        return Ok(None);
    }
    Ok(Some(bytes))
}

// How many bytes a file has; None where it isn't a regular file.
pub fn file_len(rt: &HostRuntime, path: &str) -> io::Result<Option<u64>> {
    let found = fs::metadata(rt, path)?;
    Ok(found.is_file().then_some(found.len()))
}

// Bytes of the system's source of randomness.
pub fn random<const N: usize>(rt: &HostRuntime) -> io::Result<[u8; N]> {
    let mut bytes = [0; N];
    let mut source = File::open(rt, "/dev/urandom")?;
    source.read_exact(&mut bytes)?;
    Ok(bytes)
}

// Overwrites bytes with zeros. The second time the system does, which no compiler leaves out.
pub fn wipe(rt: &HostRuntime, bytes: &mut [u8])
    ensures len { length bytes.new ≡ length bytes.old }
{
    bytes.fill(0);
    let _ = read_start(rt, "/dev/zero", bytes);
}
