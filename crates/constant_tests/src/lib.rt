// Settlements under a constant hash: what is promised of a settlement asks nothing of a hash but that it is a function.
#![tactic(auto)]

pub mod constant;
#[cfg(test)]
mod settled;
