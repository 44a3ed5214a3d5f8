// The XOR gate: one step for both sides, without material and without a hash call.
ghost use Rattle.std.specs.Prelude.{◌≡◌};
ghost use Rattle.gates.specs.Xor.{Meets, Sound};

use labels::kind::Label;

// The new wire's label, from the two operands' labels.
pub fn step<L: Label>(a: L, b: L) -> L
    ensures answer { result ≡ L.kind.xor a b }
    ensures meets { Meets L.kind a b result }
{
    a.xor(b)
}

// Whoever holds the labels of two bits gets the label of their XOR: for every label kind.
pub fn xor_gate_stands<L: Label>()
    ensures { Sound L.kind }
{}
