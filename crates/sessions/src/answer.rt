// What an accepted call answers.

use parties::state::State;

#[derive(Clone, Copy)]
pub enum Answer<L> {
    Opened,
    Garbled(usize),
    Encoded(L),
    Coloured,
    Certified(bool),
    Joined,
    Delivered,
    Evaluated,
    Decoded,
    Missing(Option<u16>),
    State(State),
    Wiped,
    // There is no token to wipe by.
    NoToken,
}
