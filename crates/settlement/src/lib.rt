// A settlement: any list of calls on both sides of one circuit, and what is promised of it.
#![tactic(auto)]

pub mod call;
mod inputs;
pub mod lent;
pub mod line;
mod next_gate;
mod outputs;
pub mod past;
mod run;
pub mod settle;
mod step;
