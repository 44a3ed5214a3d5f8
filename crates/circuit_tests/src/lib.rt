// Circuits at the edges of the rules: accepted just inside, refused just outside.
#![tactic(auto)]

#[cfg(test)]
mod built;
#[cfg(test)]
mod checks;
#[cfg(test)]
mod runs;
