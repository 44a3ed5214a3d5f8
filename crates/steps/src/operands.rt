// The labels on the wires that a gate reads.
ghost use Rattle.std.specs.Prelude.{◌≡◌, ◌+◌, ◌*◌, ◌/◌, ◌^◌, ◌<◌, ◌≤◌, true, length};
ghost use Rattle.labels.specs.Words.{word_at};
ghost use Rattle.circuit.specs.Words.{all_below};
ghost use Rattle.steps.specs.Gate.{label_on, labels_on};
ghost use Rattle.steps.specs.Memory.{memory_of};

use circuit::words::word_at;
use labels::kind::Label;
use wires::Wires;

// The label on the wire of operand j.
pub fn operand<L: Label>(wires: &Wires<L>, operands: &[u8], j: usize) -> L
    requires there { 2 * j + 1 < length operands.now }
    requires order { word_at operands.now j < wires.now.made }
    requires room { wires.now.made ≤ length wires.now.values.now }
    ensures { result ≡ label_on L.kind wires.now.values.now operands.now j }
{
    wires.read(word_at(operands, j))
}

// Eight labels fit in memory, since as many are lent: a local array of labels asks for it.
pub fn eight_fit<L: Label>(lent: &[L])
    requires { 8 ≤ length lent.now }
    ensures { 8 * memory_of L.row < 2 ^ 63 }
{}

// The labels on the wires of all operands, one after another.
pub fn read_operands<L: Label>(wires: &Wires<L>, operands: &[u8], out: &mut [L])
    requires long { length out.old ≡ length operands.now / 2 }
    requires order { all_below (word_at operands.now) (length operands.now / 2) wires.now.made ≡ true }
    requires room { wires.now.made ≤ length wires.now.values.now }
    ensures { out.new ≡ labels_on L.kind wires.now.values.now operands.now }
{
    for (j, label) in out.iter_mut().enumerate() {
        *label = operand(wires, operands, j);
    }
}
