// Published examples and values of independent implementations, run as tests.
#![tactic(auto)]

#[cfg(test)]
mod aes_cipher;
#[cfg(test)]
mod aes_values;
#[cfg(test)]
mod paper_values;
#[cfg(test)]
mod sha_values;
