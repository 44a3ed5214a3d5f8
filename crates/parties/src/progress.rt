// How far a side has come through its circuit.
ghost use Rattle.std.specs.Prelude.{◌≡◌, ◌*◌, ◌≤◌};
ghost use Rattle.parties.specs.Side.{most_bytes, unused, started};

use crate::side::Side;
use circuit::passed::Circuit;

// What a side keeps, within the limits of a circuit: both parties hold one.
#[derive(Clone, Copy)]
pub struct Progress {
    pub side: Side,
    pub ghost inputs: { side.sizes.inputs ≤ 256 },
    pub ghost gates: { side.sizes.gates ≤ 512 },
    pub ghost next: { side.next ≤ side.sizes.gates },
    pub ghost bytes: { side.bytes ≤ side.next * most_bytes },
}

impl Progress {
    // Of a side that has not begun.
    pub fn new() -> Progress
        ensures { result.side ≡ unused }
    {
        Progress { side: Side::new() }
    }

    // At the start of a circuit that passed.
    pub fn start(circuit: Circuit) -> Progress
        requires inputs { circuit.arrays.sizes.inputs ≤ 256 }
        requires gates { circuit.arrays.sizes.gates ≤ 512 }
        ensures { result.side ≡ started circuit.entry.arrays.sizes circuit.entry.wires }
    {
        Progress {
            side: Side::start(circuit.arrays.sizes, circuit.wires),
        }
    }
}
