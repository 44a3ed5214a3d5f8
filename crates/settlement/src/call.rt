// The calls of a settlement, each with the lengths of what it is lent.

#[derive(Clone, Copy)]
pub enum Call {
    Garble { scratch: usize, material: usize },
    Encode { input: usize, bit: u8 },
    Deliver { input: usize },
    Evaluate { scratch: usize },
    Colours { length: usize },
    Decode { length: usize },
    Certify { output: usize },
}
