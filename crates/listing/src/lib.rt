// What the programs print, as library functions from bytes to text.
#![tactic(auto)]

mod calls;
mod clear;
pub mod dividend;
mod hex;
mod input;
mod lines;
mod sheet;
pub mod worksheet;
