// What a side keeps of its circuit and of its way through it.
ghost use Rattle.std.specs.Prelude.{◌≡◌, ◌+◌, ◌^◌, ◌<◌};
ghost use Rattle.parties.specs.Side.{unused, started, marked, stepped};

use circuit::sizes::Sizes;

#[derive(Clone, Copy)]
pub struct Side {
    // It has not begun, or is wiped. A flag, and no Option of the rest: whether it has ended is among what a side keeps.
    pub ended: bool,
    pub sizes: Sizes,
    // All wires of the circuit.
    pub wires: u16,
    // The next gate, and the wires before it.
    pub next: u16,
    pub made: usize,
    // The material's bytes so far.
    pub bytes: usize,
    // The inputs that are encoded or delivered: fixed memory, since a side allocates nothing.
    pub marks: [bool; 256],
}

impl Side {
    // One that has not begun.
    pub fn new() -> Side
        ensures { result ≡ unused }
    {
        let sizes = Sizes {
            inputs: 0,
            gates: 0,
            outputs: 0,
            operands: 0,
            rows: 0,
        };
        Side {
            ended: true,
            sizes,
            wires: 0,
            next: 0,
            made: 0,
            bytes: 0,
            marks: [false; 256],
        }
    }

    // One at the start of a circuit.
    pub fn start(sizes: Sizes, wires: u16) -> Side
        ensures { result ≡ started sizes wires }
    {
        Side {
            ended: false,
            sizes,
            wires,
            made: usize::from(sizes.inputs),
            ..Side::new()
        }
    }

    // Marks an input.
    pub fn mark(&mut self, input: usize)
        requires { input < 256 }
        ensures { self.new ≡ marked self.old input }
    {
        self.marks[input] = true;
    }

    // One gate further, with its new wires and its bytes.
    pub fn advance(&mut self, new: usize, bytes: usize)
        requires next { self.old.next < 512 }
        requires made { self.old.made + new < 2 ^ 32 }
        requires bytes { self.old.bytes + bytes < 2 ^ 32 }
        ensures { self.new ≡ stepped self.old new bytes }
    {
        self.next += 1;
        self.made += new;
        self.bytes += bytes;
    }
}
