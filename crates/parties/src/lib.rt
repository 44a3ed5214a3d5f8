// What both parties keep of a circuit, and what each of their calls decides first.
#![tactic(auto)]

pub mod progress;
pub mod side;
pub mod state;
pub mod turn;
