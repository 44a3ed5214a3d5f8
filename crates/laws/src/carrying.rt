// What each wire of a circuit that passes carries.
ghost use Rattle.laws.specs.Carried.{WiresStand};

use labels::kind::Label;

// Zero labels, labels of given input bits, and bits: an input's is given, and a new wire's is what its gate makes of its operands'.
pub fn wires_stand<L: Label>()
    ensures { WiresStand L.kind }
{}
