// The XOR gate and the AND half gate, and what every gate needs: tweaks, b·L, labels in bytes, cleared scratch.
#![tactic(auto)]

pub mod clear;
pub mod half;
pub mod rows;
pub mod scale;
pub mod tweak;
pub mod xor;
