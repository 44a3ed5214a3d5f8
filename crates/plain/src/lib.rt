// Plain evaluation of a circuit.
#![tactic(auto)]

mod gate;
mod inputs;
mod rows;
pub mod run;
