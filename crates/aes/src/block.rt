// A block of 16 bytes as four columns.
ghost use Rattle.std.specs.Prelude.{◌≡◌, ◌++◌};
ghost use Rattle.aes.specs.Bytes.{bytes4, bytes8};
ghost use Rattle.aes.specs.Columns.{bytes_of};

// Each word is a column, its first byte lowest. By name: each column of a round takes the others in another order.
#[derive(Clone, Copy, PartialEq, Eq, Debug)]
pub struct Block {
    pub a: u32,
    pub b: u32,
    pub c: u32,
    pub d: u32,
}

// The byte in each row of a column.
#[tactic(auto, using(crate::proofs::Words::low_first))]
pub(crate) fn rows(column: u32) -> [u8; 4]
    ensures { result ≡ bytes4 column }
{
    column.to_le_bytes()
}

// The column of four bytes.
pub(crate) fn column_of(rows: [u8; 4]) -> u32
    ensures { bytes4 result ≡ rows }
{
    u32::from_le_bytes(rows)
}

// Two columns as a word of 64 bits.
#[tactic(auto, using(crate::proofs::Halves::whole))]
fn joined(a: u32, b: u32) -> u64
    ensures { bytes8 result ≡ bytes4 a ++ bytes4 b }
{
    (u64::from(b) << 32) | u64::from(a)
}

// The block of 16 bytes, first to last.
impl From<[u8; 16]> for Block {
    ghost from_gives = { λ bytes block. bytes_of block ≡ bytes };

    #[tactic(auto, using(crate::proofs::Words::sixteen))]
    fn from(bytes: [u8; 16]) -> Block {
        Block {
            a: column_of([bytes[0], bytes[1], bytes[2], bytes[3]]),
            b: column_of([bytes[4], bytes[5], bytes[6], bytes[7]]),
            c: column_of([bytes[8], bytes[9], bytes[10], bytes[11]]),
            d: column_of([bytes[12], bytes[13], bytes[14], bytes[15]]),
        }
    }
}

// The 16 bytes of the block.
impl From<Block> for [u8; 16] {
    ghost from_gives = { λ block bytes. bytes ≡ bytes_of block };

    #[tactic(auto, unfolding(crate::specs::Columns::columns, crate::specs::Bytes::bytes4))]
    fn from(block: Block) -> [u8; 16] {
        let [a0, a1, a2, a3] = rows(block.a);
        let [b0, b1, b2, b3] = rows(block.b);
        let [c0, c1, c2, c3] = rows(block.c);
        let [d0, d1, d2, d3] = rows(block.d);
        [
            a0, a1, a2, a3, b0, b1, b2, b3, c0, c1, c2, c3, d0, d1, d2, d3,
        ]
    }
}

// By methods: two words in a tuple would not say which is low.
impl Block {
    // The block of two words of 64 bits, the low word's bytes first, each lowest byte first.
    #[tactic(auto, using(crate::proofs::Halves::masked, crate::proofs::Words::columns_halves))]
    pub fn from_words(low: u64, high: u64) -> Block
        ensures { bytes_of result ≡ bytes8 low ++ bytes8 high }
    {
        Block {
            a: (low & 0xffff_ffff) as u32,
            b: (low >> 32) as u32,
            c: (high & 0xffff_ffff) as u32,
            d: (high >> 32) as u32,
        }
    }

    // The two words of the block, the low word first.
    #[tactic(auto, using(crate::proofs::Words::columns_halves))]
    pub fn words(self) -> (u64, u64)
        ensures { bytes8 result.0 ++ bytes8 result.1 ≡ bytes_of self }
    {
        (joined(self.a, self.b), joined(self.c, self.d))
    }
}
