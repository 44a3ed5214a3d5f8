// Circuits for the tests, and what is answered of them.
use circuit::check::check;
use circuit::refusal::Refusal;
use labels::long::Long;
use std::alloc::{AllocError, Global};

// The bytes of a circuit of these words and as many zero words, the lower byte of each word first.
pub fn circuit_of(heap: Global, words: &[u16], zeros: u16) -> Result<Vec<u8>, AllocError> {
    let mut bytes = Vec::new(heap);
    for word in words {
        bytes.extend_from_slice(&word.to_le_bytes())?;
    }
    repeat(&mut bytes, 0, zeros)?;
    Ok(bytes)
}

// Adds one word some times.
pub fn repeat(bytes: &mut Vec<u8>, word: u16, times: u16) -> Result<(), AllocError> {
    for _ in 0..times {
        bytes.extend_from_slice(&word.to_le_bytes())?;
    }
    Ok(())
}

// Nothing, or a refusal's number and the gate that it names.
pub type Answer = Result<(), (u8, Option<u16>)>;

pub fn numbers_of(why: Refusal) -> (u8, Option<u16>) {
    (why.number(), why.gate())
}

// What the check answers, with long labels.
pub fn answer_to(circuit: &[u8]) -> Answer {
    check::<Long>(circuit).map(|_| ()).map_err(numbers_of)
}
