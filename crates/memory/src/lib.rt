// What the parties' calls do to lent memory: a seed that is cleared, wires at the start, colours and outputs, the open copy of a circuit.
#![tactic(auto)]

pub mod copy;
pub mod outputs;
pub mod seed;
pub mod start;
