// The message schedule of one block.
ghost use Rattle.std.specs.Prelude.{◌≡◌, ◌<◌, ◌≤◌, length};
ghost use Rattle.sha256.specs.Schedule.{extended, schedule, word, words};

use crate::functions::{small_sigma0, small_sigma1};

// The block's 16 words, the highest byte of each first.
fn load(block: &[u8; 64]) -> [u32; 16]
    ensures { result ≡ words block.now }
{
    let mut w = [0; 16];
    let (words, _) = block.as_chunks::<4>();
    for (t, bytes) in words.iter().enumerate() {
        w[t] = u32::from_be_bytes(*bytes);
    }
    w
}

// Word t of the schedule, from the words before it.
fn next(w: &[u32], t: usize) -> u32
    requires from { 16 ≤ t }
    requires within { t < length w.now }
    ensures { result ≡ word w.now t }
{
    small_sigma1(w[t - 2])
        .wrapping_add(w[t - 7])
        .wrapping_add(small_sigma0(w[t - 15]))
        .wrapping_add(w[t - 16])
}

// All 64 words, from the first 16.
fn extend(first: [u32; 16]) -> [u32; 64]
    ensures { result ≡ extended first 48 }
{
    let mut w = [0; 64];
    w[..16].copy_from_slice(&first);
    // By index: each word is made of words before it.
    for t in 16..64 {
        w[t] = next(&w, t);
    }
    w
}

// The schedule of a block.
#[tactic(auto, unfolding(crate::specs::Schedule::schedule))]
pub fn spread(block: &[u8; 64]) -> [u32; 64]
    ensures { result ≡ schedule block.now }
{
    extend(load(block))
}
