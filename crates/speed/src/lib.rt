// The engine's steps for the bench: the AES hash, the AND half gate and the table gate, on labels in bytes.
#![tactic(auto)]

mod in_a_row;
mod one_table;
