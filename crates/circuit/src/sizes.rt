// The sizes of a circuit, and what its check answers.

// The five words that a circuit begins with.
#[derive(Clone, Copy, PartialEq, Eq, Debug)]
pub struct Sizes {
    pub inputs: u16,
    pub gates: u16,
    pub outputs: u16,
    pub operands: u16,
    pub rows: u16,
}

// A circuit that passed: its sizes, its wires, and its material in bits and in bytes.
#[derive(Clone, Copy, PartialEq, Eq, Debug)]
pub struct Checked {
    pub sizes: Sizes,
    pub wires: u16,
    pub bits: usize,
    pub bytes: usize,
}
