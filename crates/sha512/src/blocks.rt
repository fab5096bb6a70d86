// One block of 128 bytes worked into a state of eight words, and many.
ghost use Rattle.std.specs.Prelude.{◌≡◌, ◌+◌, ◌<◌, ◌≤◌, fold};
ghost use Rattle.std.proofs.Math.ListN as L;
ghost use Rattle.octets.specs.Bytes.{reversed};
ghost use Rattle.sha512.specs.Constants.{constants};
ghost use Rattle.sha512.specs.Sha512.{block_words, extend_words, round, rounds, add_words, compress_block};

use crate::constants::round_constant;
use crate::words::{big_sigma0, big_sigma1, choose, majority, small_sigma0, small_sigma1};

pub(crate) type State = [u64; 8];

pub(crate) type Block = [u8; 128];

// the message schedule: a word for each of the eighty rounds
type Words = [u64; 80];

// the sixteen words of a block at the front of the schedule
fn block_words(block: &Block) -> Words
    ensures { L.take 16 result ≡ block_words 16 block.now }
{
    let (words, _) = block.as_chunks::<8>();
    let mut w = [0; 80];
    // by index: a block may be secret
    for i in 0..16 {
        w[i] = u64::from_be_bytes(words[i]);
    }
    w
}

fn schedule(block: &Block) -> Words
    ensures { result ≡ reversed (extend_words 64 (reversed (block_words 16 block.now))) }
{
    let mut w = block_words(block);
    // by index: each later word comes from four before it
    for t in 16..80 {
        w[t] = small_sigma1(w[t - 2])
            .wrapping_add(w[t - 7])
            .wrapping_add(small_sigma0(w[t - 15]).wrapping_add(w[t - 16]));
    }
    w
}

#[tactic(auto, using(octets::proofs::Lists::nth_is), unfolding(crate::specs::Sha512::round))]
fn round(s: State, k: u64, w: u64) -> State
    ensures { result ≡ round s k w }
{
    let [a, b, c, d, e, f, g, h] = s;
    let t1 = h
        .wrapping_add(big_sigma1(e))
        .wrapping_add(choose(e, f, g).wrapping_add(k))
        .wrapping_add(w);
    let t2 = big_sigma0(a).wrapping_add(majority(a, b, c));
    [t1.wrapping_add(t2), a, b, c, d.wrapping_add(t1), e, f, g]
}

#[tactic(auto, unfolding(crate::specs::Sha512::add_words))]
fn add_words(a: State, b: State) -> State
    ensures { result ≡ add_words a b }
{
    let mut sum = [0; 8];
    // by index: a state may be secret
    for i in 0..8 {
        sum[i] = a[i].wrapping_add(b[i]);
    }
    sum
}

// the round at a place of the schedule
#[tactic(auto, using(octets::proofs::Lists::nth_is, crate::proofs::Schedule::rounds_more, crate::proofs::Table::length_constants))]
fn round_at(s: State, w: &Words, at: usize) -> State
    requires { at < 80 }
    ensures { rounds s (L.drop at constants) (L.drop at w.now) ≡ rounds result (L.drop (at + 1) constants) (L.drop (at + 1) w.now) }
{
    round(s, round_constant(at), w[at])
}

// eight rounds, after which each word of the state is back at its place: a loop of single rounds takes a fifth longer
fn eight_rounds(s: State, w: &Words, at: usize) -> State
    requires { at + 8 ≤ 80 }
    ensures { rounds s (L.drop at constants) (L.drop at w.now) ≡ rounds result (L.drop (at + 8) constants) (L.drop (at + 8) w.now) }
{
    let s = round_at(s, w, at);
    let s = round_at(s, w, at + 1);
    let s = round_at(s, w, at + 2);
    let s = round_at(s, w, at + 3);
    let s = round_at(s, w, at + 4);
    let s = round_at(s, w, at + 5);
    let s = round_at(s, w, at + 6);
    round_at(s, w, at + 7)
}

#[tactic(auto, using(crate::proofs::Schedule::rounds_done, crate::proofs::Table::length_constants))]
pub(crate) fn compress(state: State, block: &Block) -> State
    ensures { result ≡ compress_block state block.now }
{
    let w = schedule(block);
    let mut s = state;
    // by index: ten turns of eight rounds; by `next`, since an array that lives on can't take a call's result
    for i in 0..10 {
        let next = eight_rounds(s, &w, 8 * i);
        s = next;
    }
    add_words(state, s)
}

pub(crate) fn hash_blocks(state: State, blocks: &[Block]) -> State
    ensures { result ≡ fold compress_block state blocks.now }
{
    let mut s = state;
    // by index: blocks may be secret; by `next`, as in `compress`
    for i in 0..blocks.len() {
        let next = compress(s, &blocks[i]);
        s = next;
    }
    s
}
