// Circuits: the format and its check.
#![tactic(auto)]

pub mod arrays;
pub mod check;
pub mod cut;
pub mod forms;
pub mod gate;
pub mod header;
pub mod passed;
pub mod refusal;
pub mod sizes;
pub mod words;
