// The key expansion.
ghost use Rattle.std.specs.Prelude.{◌≡◌, ◌<◌, ◌≤◌, map};
ghost use Rattle.aes.specs.Bytes.{bytes4};
ghost use Rattle.aes.specs.Columns.{bytes_of};
ghost use Rattle.aes.specs.KeyExpansion.{key_expansion, rcon, rot_word, round_key, sub_word, term};

use crate::block::{Block, column_of, rows};
use crate::s_box::sub_byte;

// The round constants, each the first byte of a word.
static ROUND_CONSTANTS: [u32; 10] = [0x01, 0x02, 0x04, 0x08, 0x10, 0x20, 0x40, 0x80, 0x1b, 0x36];

// A key and the 44 words of its expansion.
#[derive(Clone, Copy)]
pub struct RoundKeys {
    pub(crate) key: Block,
    pub(crate) words: [u32; 44],
    ghost expanded: { map bytes4 words ≡ key_expansion (bytes_of key) },
}

// The round constant i, counted from 1.
fn round_constant(i: usize) -> u32
    requires least { 1 ≤ i }
    requires below { i < 11 }
    ensures { bytes4 result ≡ rcon i }
{
    ROUND_CONSTANTS[i - 1]
}

#[tactic(auto, unfolding(crate::specs::Bytes::bytes4, crate::specs::KeyExpansion::rot_word))]
fn rot_word(w: u32) -> u32
    ensures { bytes4 result ≡ rot_word (bytes4 w) }
{
    let [a, b, c, d] = rows(w);
    column_of([b, c, d, a])
}

fn sub_word(w: u32) -> u32
    ensures { bytes4 result ≡ sub_word (bytes4 w) }
{
    column_of(rows(w).map(sub_byte))
}

// What word i adds to the word four before it; w is the word just before it.
#[tactic(auto, using(crate::proofs::Words::bytes4_xor), unfolding(crate::specs::KeyExpansion::term))]
fn key_term(i: usize, w: u32) -> u32
    requires least { 4 ≤ i }
    requires below { i < 44 }
    ensures { bytes4 result ≡ term i (bytes4 w) }
{
    if i % 4 == 0 {
        sub_word(rot_word(w)) ^ round_constant(i / 4)
    } else {
        w
    }
}

impl RoundKeys {
    // The expansion of a key.
    #[tactic(auto, using(crate::proofs::WordLists::all_words))]
    pub fn of(key: Block) -> RoundKeys
        ensures { result.key ≡ key }
    {
        let mut words = [0; 44];
        words[..4].copy_from_slice(&[key.a, key.b, key.c, key.d]);
        // By index: each word is made of words before it.
        for i in 4..44 {
            words[i] = words[i - 4] ^ key_term(i, words[i - 1]);
        }
        RoundKeys { key, words }
    }
}

// The round key r, of the words of an expansion; 0 is added before the first round.
#[tactic(auto, using(crate::proofs::WordLists::four_columns))]
pub(crate) fn round_key(words: &[u32; 44], r: usize) -> Block
    requires { r < 11 }
    ensures { bytes_of result ≡ round_key (map bytes4 words.now) r }
{
    Block {
        a: words[4 * r],
        b: words[4 * r + 1],
        c: words[4 * r + 2],
        d: words[4 * r + 3],
    }
}
