// That labels stand for bits, through one gate and over a whole circuit: for every label kind and every F.
ghost use Rattle.laws.specs.Sound.{CircuitSound, GateSound};

use labels::kind::Label;

// Whoever holds the labels of the bits on the wires before a gate gets those of its new wires' bits.
pub fn gate_is_sound<L: Label>()
    ensures { GateSound L.kind }
{}

// Whoever holds the labels of the input bits gets the label of the plain bit on every wire.
pub fn circuit_is_sound<L: Label>()
    ensures { CircuitSound L.kind }
{}
