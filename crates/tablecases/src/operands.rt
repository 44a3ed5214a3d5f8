// What a case is made of: the seed, the operands' labels and the table's rows. Labels and rows are written into the front of lent memory.
ghost use Rattle.std.specs.Prelude.{◌≡◌, ◌*◌, ◌^◌, ◌≤◌, length};

use gates::scale::times;
use hashes::draws::draw;
use hashes::hash::LabelHash;
use labels::kind::Label;
use material::row_count;

// The seed: its bytes are those of the word 1000 n + m, low byte first, and again with 83 more on each byte.
pub fn seed_of<L: Label>(n: usize, m: usize) -> L
    requires inputs { n ≤ 8 }
    requires outputs { m ≤ 16 }
{
    let word = 1000 * n + m;
    let pair = [word % 256, word / 256];
    // The widest label has 4096 bytes.
    let mut widest = [0; 4096];
    let bytes = &mut widest[..L::width()];
    for (k, byte) in bytes.iter_mut().enumerate() {
        *byte = ((pair[k % 2] + 83 * (k / 2)) % 256) as u8;
    }
    L::read(bytes)
}

// The zero labels of so many operands.
pub fn zero_labels<'a, L: Label, H: LabelHash<L>>(
    hash: &mut H,
    seed: L,
    n: usize,
    lent: &'a mut [L],
) -> &'a [L]
    requires operands { n ≤ 8 }
    requires room { n ≤ length lent.old }
    ensures { length result.now ≡ n }
{
    let zeros = &mut lent[..n];
    for (k, zero) in zeros.iter_mut().enumerate() {
        *zero = draw(hash, seed, 1 + k as u32);
    }
    zeros
}

// The labels of the operands for the bits of a number.
pub fn labels_of<'a, L: Label>(zeros: &[L], offset: L, number: usize, lent: &'a mut [L]) -> &'a [L]
    requires operands { length zeros.now ≤ 8 }
    requires room { length zeros.now ≤ length lent.old }
    ensures { length result.now ≡ length zeros.now }
{
    let labels = &mut lent[..zeros.len()];
    for (k, (label, zero)) in labels.iter_mut().zip(zeros).enumerate() {
        *label = zero.xor(times((number >> k) % 2 == 1, offset));
    }
    labels
}

// A table of 2^n rows below 2^m, two bytes a row, the lower first.
pub fn table_rows(n: usize, m: usize, lent: &mut [u8]) -> &[u8]
    requires inputs { n ≤ 8 }
    requires outputs { m ≤ 16 }
    requires room { 2 * 2 ^ n ≤ length lent.old }
    ensures { length result.now ≡ 2 * 2 ^ n }
{
    let mut bytes = 0;
    for k in 0..row_count(n) {
        let row = ((40503 * k + 77 * n + m) % (1 << m)) as u16;
        lent[bytes..bytes + 2].copy_from_slice(&row.to_le_bytes());
        bytes += 2;
    }
    &lent[..bytes]
}
