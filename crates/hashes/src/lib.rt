// Hashes over a label kind: the interface, the draws from a seed, and the named hashes.
#![tactic(auto)]

pub mod aes_hash;
pub mod counted;
pub mod draws;
pub mod function;
pub mod hash;
pub mod paper;
pub mod sha_hash;
