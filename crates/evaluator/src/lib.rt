// The evaluator and its calls on lent memory.
#![tactic(auto)]

pub mod decoding;
pub mod delivering;
pub mod evaluating;
pub mod joining;
pub mod missing;
pub mod record;
pub mod wiping;
