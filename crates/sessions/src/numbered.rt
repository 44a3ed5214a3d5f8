// What a session needs of a label kind: labels from the input, and as text.

use crate::flat::Flat;
use labels::kind::Label;
use labels::paper::Paper;
use std::alloc::AllocError;

pub trait Numbered: Label {
    // What wires and scratch hold before a session.
    fn used() -> Self;

    // The label of a number.
    fn of(number: u16) -> Self;

    // Writes it as one number in hex, its highest byte first.
    fn add_to(self, text: &mut String) -> Result<(), AllocError>;
}

impl Numbered for Paper {
    fn used() -> Paper {
        Paper::of(0xAAAA)
    }

    fn of(number: u16) -> Paper {
        Paper::read(&number.to_le_bytes())
    }

    fn add_to(self, text: &mut String) -> Result<(), AllocError> {
        let mut bytes = [0; 2];
        self.write(&mut bytes);
        let word = u16::from_le_bytes(bytes);
        write!(text, "{word:04X}")
    }
}

impl Numbered for Flat {
    fn used() -> Flat {
        Flat::of(9)
    }

    fn of(number: u16) -> Flat {
        let [byte, _] = number.to_le_bytes();
        Flat::read(&[byte])
    }

    fn add_to(self, text: &mut String) -> Result<(), AllocError> {
        let mut bytes = [0; 1];
        self.write(&mut bytes);
        let [byte] = bytes;
        write!(text, "{byte:02X}")
    }
}
