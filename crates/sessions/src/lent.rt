// What a side is lent, and the count of its hash.
ghost use Rattle.std.specs.Prelude.{◌≤◌, length};

use crate::numbered::Numbered;
use labels::kind::Label;
use std::alloc::{AllocError, Global};

#[derive(Drop)]
pub struct Lent<L> {
    // A seed, the colours or the output bits.
    pub bytes: Vec<u8>,
    pub wires: Vec<L>,
    pub material: Vec<u8>,
    pub scratch: Vec<L>,
    pub count: u64,
}

impl<L: Numbered> Lent<L> {
    // More than the circuits of the sessions ask for, and nowhere zero.
    pub fn new(heap: Global) -> Result<Lent<L>, AllocError> {
        Ok(Lent {
            bytes: Vec::new(heap),
            wires: vec![in heap; L::used(); 8]?,
            material: vec![in heap; 0x77; 16]?,
            scratch: vec![in heap; L::used(); 260]?,
            count: 0,
        })
    }

    // So many wires, or all where there are fewer.
    pub fn front(&self, wires: usize) -> usize
        ensures there { result ≤ length self.now.wires.items }
        ensures few { result ≤ 8 }
    {
        wires.min(8).min(self.wires.len())
    }

    pub fn copy(&self) -> Result<Lent<L>, AllocError> {
        Ok(Lent {
            bytes: self.bytes.clone()?,
            wires: self.wires.clone()?,
            material: self.material.clone()?,
            scratch: self.scratch.clone()?,
            count: self.count,
        })
    }
}

pub fn same_labels<L: Label>(these: &[L], those: &[L]) -> bool {
    these.iter().zip(those.iter()).all(|(x, y)| x.same(*y))
}

// How many labels are zero before the first that is not.
pub fn zeros<L: Label>(labels: &[L]) -> usize {
    let zeros = labels.iter().take_while(|label| label.same(L::zero()));
    zeros.count()
}
