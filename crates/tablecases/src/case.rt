// One gate, garbled and evaluated.
ghost use Rattle.std.specs.Prelude.{◌≡◌, ◌*◌, ◌^◌, ◌<◌, ◌≤◌, length};
ghost use Rattle.std.specs.Mem.{type_size};
ghost use Rattle.material.specs.Size.{bytes_of};

use crate::operands::{labels_of, seed_of, table_rows, zero_labels};
use hashes::draws::draw;
use hashes::hash::LabelHash;
use labels::kind::Label;
use material::{byte_count, row_count};
use tables::gate;

// A table gate with its seed and offset, the zero labels of its operands, and their labels for one row.
#[derive(Drop)]
pub struct Case<'a, L> {
    gate: u32,
    outputs: usize,
    seed: L,
    offset: L,
    zeros: &'a [L],
    labels: &'a [L],
    rows: &'a [u8],
    ghost numbered: { gate < 512 },
    ghost few_outputs: { outputs ≤ 16 },
    ghost some_operand: { 1 ≤ length zeros.now },
    ghost few_operands: { length zeros.now ≤ 8 },
    ghost labelled: { length labels.now ≡ length zeros.now },
    ghost whole: { length rows.now ≡ 2 * 2 ^ length zeros.now },
}

impl<'a, L: Label> Case<'a, L> {
    // The case of n operands and m new wires, its labels and rows in the front of lent memory.
    pub fn new<H: LabelHash<L>>(
        hash: &mut H,
        n: usize,
        m: usize,
        zeros: &'a mut [L],
        labels: &'a mut [L],
        rows: &'a mut [u8],
    ) -> Case<'a, L>
        requires some_operand { 1 ≤ n }
        requires operands { n ≤ 8 }
        requires outputs { m ≤ 16 }
        requires zeros { n ≤ length zeros.old }
        requires labels { n ≤ length labels.old }
        requires rows { 2 * 2 ^ n ≤ length rows.old }
        ensures zeros { length result.zeros.now ≡ n }
        ensures new { result.outputs ≡ m }
    {
        let seed = seed_of(n, m);
        let offset = draw(hash, seed, 0).raise();
        let zeros = zero_labels(hash, seed, n, zeros);
        let row = (29 * n + 13 * m) % row_count(n);
        let labels = labels_of(zeros, offset, row, labels);
        let rows = table_rows(n, m, rows);
        Case {
            gate: (60 * n + m) as u32,
            outputs: m,
            seed,
            offset,
            zeros,
            labels,
            rows,
        }
    }

    // The gate's material and the zero labels of its new wires, in the front of lent memory. The scratch is not zero when lent.
    pub fn garble<'b, H: LabelHash<L>>(
        &self,
        hash: &mut H,
        material: &'b mut [u8],
        new: &'b mut [L],
    ) -> (&'b [u8], &'b [L])
        requires fits { 300 * type_size L.row < 2 ^ 63 }
        requires material { bytes_of L.kind.width (length self.now.zeros.now) self.now.outputs ≤ length material.old }
        requires new { self.now.outputs ≤ length new.old }
        ensures material { length result.0.now ≡ bytes_of L.kind.width (length self.now.zeros.now) self.now.outputs }
        ensures new { length result.1.now ≡ self.now.outputs }
    {
        let bytes = byte_count(L::width(), self.zeros.len(), self.outputs);
        let material = &mut material[..bytes];
        let new = &mut new[..self.outputs];
        gate::garble(
            hash,
            self.gate,
            self.seed,
            self.offset,
            self.zeros,
            self.rows,
            material,
            &mut [self.seed; 300],
            new,
        );
        (material, new)
    }

    // The labels of the new wires, from the operands' labels, in the front of lent memory.
    pub fn evaluate<'b, H: LabelHash<L>>(
        &self,
        hash: &mut H,
        material: &[u8],
        new: &'b mut [L],
    ) -> &'b [L]
        requires fits { 300 * type_size L.row < 2 ^ 63 }
        requires material { length material.now ≡ bytes_of L.kind.width (length self.now.zeros.now) self.now.outputs }
        requires new { self.now.outputs ≤ length new.old }
        ensures { length result.now ≡ self.now.outputs }
    {
        let new = &mut new[..self.outputs];
        gate::evaluate(
            hash,
            self.gate,
            self.labels,
            material,
            &mut [self.seed; 300],
            new,
        );
        new
    }
}
