// The XOR gate on wires, the same for both sides.
ghost use Rattle.std.specs.Prelude.{◌≡◌, ◌+◌, ◌<◌, true, length};
ghost use Rattle.labels.specs.Words.{word_at};
ghost use Rattle.wires.specs.Wires.{Grown};
ghost use Rattle.circuit.specs.Words.{all_below};
ghost use Rattle.steps.specs.Gate.{label_on};

use crate::operands::operand;
use gates::xor::step;
use labels::kind::Label;
use wires::Wires;

// Makes the new wire.
pub fn xor_wire<L: Label>(wires: &mut Wires<L>, operands: &[u8])
    requires shaped { length operands.now ≡ 4 }
    requires order { all_below (word_at operands.now) 2 wires.old.made ≡ true }
    requires room { wires.old.made < length wires.old.values.now }
    ensures made { wires.new.made ≡ wires.old.made + 1 }
    ensures grown { Grown wires.old.made 1 (λ _. L.kind.xor (label_on L.kind wires.old.values.now operands.now 0) (label_on L.kind wires.old.values.now operands.now 1)) wires.old.values.now wires.new.values.now }
    ensures same { wires.new.values.ghost_name ≡ wires.old.values.ghost_name }
{
    let a = operand(wires, operands, 0);
    let b = operand(wires, operands, 1);
    wires.push(step(a, b));
}
