// A whole settlement of a circuit: every input, every gate, and every output.
#![tactic(auto)]

mod calls;
pub mod ending;
pub mod room;
pub mod whole;
