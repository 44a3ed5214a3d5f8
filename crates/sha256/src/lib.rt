// SHA-256 (FIPS 180-4).
#![tactic(auto)]

mod compression;
mod functions;
mod padding;
mod schedule;
mod state;

ghost use Rattle.std.specs.Prelude.{◌≡◌, ◌+◌, ◌/◌, ◌%◌, ◌<◌, ◌++◌, length, replicate};
ghost use Rattle.sha256.specs.Digest.{digest, hashed, output};
ghost use Rattle.sha256.specs.Padding.{padding, zeros};
ghost use Rattle.sha256.specs.Filling.{PaddingFills};
ghost use Rattle.sha256.specs.Vector.{DigestOfAbc};

use compression::compress;
use padding::{pad, padded_length};
use state::State;

// The hash value before the first block.
const INITIAL: State = State {
    a: 0x6a09e667,
    b: 0xbb67ae85,
    c: 0x3c6ef372,
    d: 0xa54ff53a,
    e: 0x510e527f,
    f: 0x9b05688c,
    g: 0x1f83d9ab,
    h: 0x5be0cd19,
};

// The hash value after all whole blocks of the bytes.
#[tactic(auto, using(crate::proofs::Blocks::block_absorbed))]
fn absorb(start: State, bytes: &[u8]) -> State
    ensures { result ≡ hashed start bytes.now (length bytes.now / 64) }
{
    let mut state = start;
    let (blocks, _) = bytes.as_chunks::<64>();
    for block in blocks {
        state = compress(state, block);
    }
    state
}

// The 32 bytes of a hash value: each word's highest byte first.
fn write(s: State) -> [u8; 32]
    ensures { result ≡ output s }
{
    let words = [s.a, s.b, s.c, s.d, s.e, s.f, s.g, s.h];
    let mut out = [0; 32];
    out.copy_from_slice(words.map(u32::to_be_bytes).as_flattened());
    out
}

// The hash value after the rest of a message of `total` bytes with its padding, which is built in `blank`.
fn finish(state: State, blank: &mut [u8], rest: &[u8], total: usize) -> State
    requires short { length rest.now ≡ total % 64 }
    requires room { length blank.old ≡ length rest.now + 9 + zeros (length rest.now) }
    requires zero { blank.old ≡ replicate (length blank.old) 0 }
    ensures { result ≡ hashed state (rest.now ++ padding total) (length (rest.now ++ padding total) / 64) }
{
    pad(blank, rest, total);
    absorb(state, blank)
}

// The digest of a message of `total` bytes, given as its whole blocks and the rest.
fn digest_of_parts(body: &[u8], rest: &[u8], total: usize) -> [u8; 32]
    requires whole { length body.now % 64 ≡ 0 }
    requires short { length rest.now < 64 }
    requires all { length body.now + length rest.now ≡ total }
    ensures { result ≡ digest (body.now ++ rest.now) }
{
    let state = absorb(INITIAL, body);
    let mut last = [0; 128];
    let end = padded_length(rest.len());
    write(finish(state, &mut last[..end], rest, total))
}

// The digest of a message. Its whole blocks are read where they stand; only the last one or two are built.
pub fn sha256(message: &[u8]) -> [u8; 32]
    ensures { result ≡ digest message.now }
{
    let (body, rest) = message.split_at(message.len() / 64 * 64);
    digest_of_parts(body, rest, message.len())
}

// The padding fills whole blocks, and with the least number of zeros.
pub fn padding_stands()
    ensures { PaddingFills }
{}

// The definition gives the published digest of "abc".
pub fn vector_stands()
    ensures { DigestOfAbc }
{}
