// The garbler and its calls on lent memory.
#![tactic(auto)]

pub mod certifying;
pub mod colouring;
pub mod encoding;
pub mod garbling;
pub mod opening;
pub mod record;
pub mod wiping;
