// Public test vectors and known messages, run against the library: one line a file, with how many cases came out as expected.
#![tactic(auto)]

mod ciphers;
mod hashes;
mod messages;
mod requests;
mod words;

use std::fs;
use words::Words;

// Runs the case on each line, and says how many came out as expected.
fn run<F: Fn(&mut Words) -> anyhow::Result<bool>>(
    rt: &HostRuntime,
    name: &str,
    case: F,
) -> anyhow::Result<()>
    requires { F.IsAlwaysCallable case }
{
    let heap = rt.alloc();
    let text = fs::read_to_string(rt, name)?;
    // Two counts: a `Vec` of outcomes grows with the file, and a fold moves each case's whole result, room for an error and all.
    let mut right = 0u32;
    let mut all = 0u32;
    for line in text.lines() {
        right = right.saturating_add(u32::from(case(&mut Words::of(heap, line))?));
        all = all.saturating_add(1);
    }
    println!(rt; "{name}: {right} of {all}")?;
    Ok(())
}

fn main(rt: HostRuntime) -> anyhow::Result<()> {
    run(&rt, "sha512.txt", hashes::sha512_case)?;
    run(&rt, "hmac512.txt", hashes::hmac_case)?;
    run(&rt, "hkdf512.txt", hashes::hkdf_case)?;
    run(&rt, "aes256.txt", ciphers::aes_case)?;
    run(&rt, "gcm.txt", ciphers::gcm_case)?;
    run(&rt, "header.txt", messages::header_case)?;
    run(&rt, "open.txt", messages::open_case)?;
    run(&rt, "seal.txt", messages::seal_case)?;
    run(&rt, "length.txt", messages::length_case)
}
