// AES-128 encryption of one block, as FIPS 197 defines it, without AES instructions. Table look-ups depend on secret data in time.
#![tactic(auto)]

pub mod block;
pub mod cipher;
pub mod fixed;
pub mod key_schedule;
mod mixed_tables;
mod placed_tables;
mod round;
pub mod s_box;
