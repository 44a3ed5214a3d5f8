// The lookup-table gate, once for all label kinds and hashes.
// How long lent slices are stands in each contract: memory is lent as slices, and a slice carries no ghost field.
#![tactic(auto)]

mod evaluate_levels;
mod garble_levels;
pub mod gate;
mod number;
mod one_hot;
mod one_level;
mod pack;
mod random;
mod rows;
mod wires;
