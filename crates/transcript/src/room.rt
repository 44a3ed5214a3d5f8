// The memory that a settlement is run in, on the heap.

use crate::parts::Parts;
use labels::kind::Label;
use std::alloc::{AllocError, Global};

// The labels of scratch, and of those that encode answers.
const LABELS: usize = 256;

// One more than the outputs that a circuit may have, so that too many can be lent.
const OUTPUTS: usize = 257;

#[derive(Drop)]
pub struct Room<L> {
    pub copy: Vec<u8>,
    pub seed: Vec<u8>,
    pub zeros: Vec<L>,
    pub labels: Vec<L>,
    pub sent: Vec<L>,
    pub scratch: Vec<L>,
    pub material: Vec<u8>,
    pub colours: Vec<u8>,
    pub outputs: Vec<u8>,
}

impl<L: Label> Room<L> {
    // As long as the parts say, and zero but for the seed.
    pub fn new(heap: Global, parts: &Parts) -> Result<Room<L>, AllocError> {
        let zero = L::zero();
        Ok(Room {
            copy: vec![in heap; 0; parts.circuit.len()]?,
            seed: parts.seed.clone()?,
            zeros: vec![in heap; zero; parts.wires.0]?,
            labels: vec![in heap; zero; parts.wires.1]?,
            sent: vec![in heap; zero; LABELS]?,
            scratch: vec![in heap; zero; LABELS]?,
            material: vec![in heap; 0; parts.material]?,
            colours: vec![in heap; 0; OUTPUTS]?,
            outputs: vec![in heap; 0; OUTPUTS]?,
        })
    }
}
