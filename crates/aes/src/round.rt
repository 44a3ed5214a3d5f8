// The rounds on a block. A column that ShiftRows gives has row 0 of column p, row 1 of q, row 2 of s and row 3 of t.
ghost use Rattle.std.specs.Prelude.{◌≡◌, [], ◌∷◌};
ghost use Rattle.aes.specs.Bytes.{byte, bytes4, xors};
ghost use Rattle.aes.specs.Columns.{bytes_of};
ghost use Rattle.aes.specs.Rounds.{add_round_key, full_round, last_round, mixed};
ghost use Rattle.aes.specs.SBox.{s_box};

use crate::block::{Block, rows};
use crate::mixed_tables::mix;
use crate::placed_tables::placed;

#[tactic(auto, using(crate::proofs::RoundSteps::key_added))]
pub fn add_round_key(s: Block, k: Block) -> Block
    ensures { bytes_of result ≡ add_round_key (bytes_of s) (bytes_of k) }
{
    Block {
        a: s.a ^ k.a,
        b: s.b ^ k.b,
        c: s.c ^ k.c,
        d: s.d ^ k.d,
    }
}

// One column of a full round. The key comes first and then row 3: with row 0 before row 3 the AES hash takes 13 percent more time.
#[tactic(auto, using(crate::proofs::RoundSteps::mixed_word_and_key), unfolding(crate::specs::Bytes::bytes4))]
fn full_column(p: u32, q: u32, s: u32, t: u32, k: u32) -> u32
    ensures { bytes4 result ≡ xors (mixed (s_box (byte 0 p)) (s_box (byte 1 q)) (s_box (byte 2 s)) (s_box (byte 3 t))) (bytes4 k) }
{
    k ^ mix::<3>(rows(t)[3]) ^ mix::<0>(rows(p)[0]) ^ mix::<1>(rows(q)[1]) ^ mix::<2>(rows(s)[2])
}

#[tactic(auto, using(crate::proofs::RoundSteps::full_round_columns))]
pub fn full_round(s: Block, k: Block) -> Block
    ensures { bytes_of result ≡ full_round (bytes_of s) (bytes_of k) }
{
    Block {
        a: full_column(s.a, s.b, s.c, s.d, k.a),
        b: full_column(s.b, s.c, s.d, s.a, k.b),
        c: full_column(s.c, s.d, s.a, s.b, k.c),
        d: full_column(s.d, s.a, s.b, s.c, k.d),
    }
}

// One column of the last round. `last_round` is `full_round` over it: with the column's function as a parameter both contracts would speak of that function.
#[tactic(auto, using(crate::proofs::RoundSteps::placed_word_and_key), unfolding(crate::specs::Bytes::bytes4))]
fn last_column(p: u32, q: u32, s: u32, t: u32, k: u32) -> u32
    ensures { bytes4 result ≡ xors (s_box (byte 0 p) ∷ s_box (byte 1 q) ∷ s_box (byte 2 s) ∷ s_box (byte 3 t) ∷ []) (bytes4 k) }
{
    placed::<3>(rows(t)[3])
        ^ placed::<0>(rows(p)[0])
        ^ placed::<1>(rows(q)[1])
        ^ placed::<2>(rows(s)[2])
        ^ k
}

#[tactic(auto, using(crate::proofs::RoundSteps::last_round_columns))]
pub fn last_round(s: Block, k: Block) -> Block
    ensures { bytes_of result ≡ last_round (bytes_of s) (bytes_of k) }
{
    Block {
        a: last_column(s.a, s.b, s.c, s.d, k.a),
        b: last_column(s.b, s.c, s.d, s.a, k.b),
        c: last_column(s.c, s.d, s.a, s.b, k.c),
        d: last_column(s.d, s.a, s.b, s.c, k.d),
    }
}
