// Known answers: what is proved of every input, seen at one public case each.
ghost use Rattle.std.specs.Prelude.{◌≡◌};
ghost use Rattle.hkdf.specs.Known.{abc_hash, jefe_mac, jefe_key};

use crate::kdf::derive;
use crate::mac::hmac;
use sha512::hash;

#[tactic(auto, using(crate::proofs::Answered::abc_hashed))]
fn hash_of_abc() -> [u8; 64]
    ensures value { result ≡ abc_hash }
{
    hash(b"abc")
}

#[tactic(auto, using(crate::proofs::Answered::jefe_authenticated))]
fn hmac_of_jefe() -> [u8; 64]
    ensures value { result ≡ jefe_mac }
{
    hmac(b"Jefe", b"what do ya want for nothing?")
}

#[tactic(auto, using(crate::proofs::Answered::jefe_derived), unfolding(crate::specs::MessageKeys::commit_label))]
fn key_of_jefe() -> [u8; 32]
    ensures value { result ≡ jefe_key }
{
    let mut out = [0; 32];
    derive(
        b"Jefe",
        b"what do ya want for nothing?",
        b"COMMITKEY",
        &mut out,
    )
    .unwrap();
    out
}
