// The laws of one gate and of a whole circuit on labels, each on the contract of a function that does nothing:
// what every wire carries, that labels stand for bits, and what the open copy of a circuit is.
#![tactic(auto)]

pub mod carrying;
pub mod open;
pub mod sound;
