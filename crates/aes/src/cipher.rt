// The cipher under any key.
ghost use Rattle.std.specs.Prelude.{◌≡◌, map};
ghost use Rattle.aes.specs.Bytes.{bytes4};
ghost use Rattle.aes.specs.Cipher.{cipher as enciphered, cipher_with};
ghost use Rattle.aes.specs.Columns.{bytes_of};

use crate::block::Block;
use crate::key_schedule::{RoundKeys, round_key};
use crate::round::{add_round_key, full_round, last_round};

// The block encrypted with the words of a key's expansion.
// Three rounds at a time: with all rounds as lines the AES hash takes 3 percent more time, and one at a time 6.
#[tactic(auto, using(crate::proofs::RoundSteps::three_more), unfolding(crate::specs::Cipher::rounds, crate::specs::Cipher::cipher_with))]
pub(crate) fn encrypt_with(words: &[u32; 44], block: Block) -> Block
    ensures { bytes_of result ≡ cipher_with (map bytes4 words.now) (bytes_of block) }
{
    let mut state = add_round_key(block, round_key(words, 0));
    for r in 0..3 {
        state = full_round(state, round_key(words, 3 * r + 1));
        state = full_round(state, round_key(words, 3 * r + 2));
        state = full_round(state, round_key(words, 3 * r + 3));
    }
    last_round(state, round_key(words, 10))
}

// The block encrypted under the key that the round keys were made of.
#[tactic(auto, unfolding(crate::specs::Cipher::cipher))]
pub fn encrypt_under(keys: &RoundKeys, block: Block) -> Block
    ensures { bytes_of result ≡ enciphered (bytes_of keys.now.key) (bytes_of block) }
{
    encrypt_with(&keys.words, block)
}

// The block encrypted under a key, with the key's expansion.
pub fn encrypt(key: Block, block: Block) -> Block
    ensures { bytes_of result ≡ enciphered (bytes_of key) (bytes_of block) }
{
    encrypt_under(&RoundKeys::of(key), block)
}
