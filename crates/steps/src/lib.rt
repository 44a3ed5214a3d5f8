// One gate of a circuit on lent wires and material: the garbler's step and the evaluator's step, for XOR, AND and tables.
// How long lent memory is stands in each contract: it is lent as slices, and a slice carries no ghost field.
#![tactic(auto)]

pub mod evaluate;
pub mod garble;
mod operands;
pub mod secrets;
mod xor;
