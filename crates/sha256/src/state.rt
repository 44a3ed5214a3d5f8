// A hash value, and the eight working variables of the compression.
#[derive(Clone, Copy, PartialEq, Eq, Debug)]
pub struct State {
    pub a: u32,
    pub b: u32,
    pub c: u32,
    pub d: u32,
    pub e: u32,
    pub f: u32,
    pub g: u32,
    pub h: u32,
}
