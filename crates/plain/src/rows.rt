// A table's rows: the one that the operands choose, and its bits.
ghost use Rattle.std.specs.Prelude.{◌≡◌, ℕ, ◌/◌, ◌^◌, ◌<◌, ◌≤◌, true, false, length, slice_index_or};
ghost use Rattle.labels.specs.Numbers.{bit as bit_of, number as number_from};
ghost use Rattle.labels.specs.Words.{word_at};
ghost use Rattle.circuit.specs.Words.{all_below};

use circuit::words::word_at;
use wires::Wires;

// The number whose bits stand on the wires of the operands, the first lowest.
pub(crate) fn row_number(wires: &Wires<bool>, operands: &[u8]) -> usize
    requires few { length operands.now / 2 ≤ 8 }
    requires order { all_below (word_at operands.now) (length operands.now / 2) wires.now.made ≡ true }
    requires room { wires.now.made ≤ length wires.now.values.now }
    ensures number { result ≡ number_from (length operands.now / 2) (λ i. slice_index_or wires.now.values.now (word_at operands.now i) false) }
    ensures small { result < 2 ^ (length operands.now / 2) }
{
    let mut row = 0;
    // By index: operand j gives bit j.
    for j in 0..operands.len() / 2 {
        row += usize::from(wires.read(word_at(operands, j))) << j;
    }
    row
}

// Writes the low bits of a row, the lowest first.
pub(crate) fn write_bits(out: &mut [bool], row: u16)
    requires { length out.old ≤ 16 }
    ensures { (j : ℕ) → j < length out.old → slice_index_or out.new j false ≡ bit_of j row }
{
    for (j, bit) in out.iter_mut().enumerate() {
        *bit = (row >> j) % 2 == 1;
    }
}
