// What went from one side to the other so far.

#[derive(Clone, Copy)]
pub struct Past {
    // How many colours were shown, once some were.
    pub shown: Option<usize>,
    // Whether outputs were decoded.
    pub decoded: bool,
}
