// Why a call is refused.
ghost use Rattle.std.specs.Prelude.{◌≡◌, Some};
ghost use Rattle.circuit.specs.Refusals.{number_of, gate_of, refusal_text};

use std::error::Error;
use std::fmt;

// Those from `UnknownForm` to `WideRow` name a gate; a wire of the output list has the gate count.
#[derive(Clone, Copy, PartialEq, Eq, Debug)]
pub enum Refusal {
    Short,
    Size,
    Length,
    UnknownForm(u16),
    PastArray(u16),
    TooManyWires(u16),
    NotMade(u16),
    WideRow(u16),
    Turn,
    Memory,
    Material,
    Number,
    Bit,
    Again,
    ZeroSeed,
    Colourless,
    Foreign,
}

impl Refusal {
    // The number that users see.
    pub fn number(self) -> u8
        ensures { result ≡ number_of self }
    {
        match self {
            Refusal::Short => 1,
            Refusal::Size => 2,
            Refusal::Length => 3,
            Refusal::UnknownForm(_) => 4,
            Refusal::PastArray(_) => 5,
            Refusal::TooManyWires(_) => 6,
            Refusal::NotMade(_) => 7,
            Refusal::WideRow(_) => 8,
            Refusal::Turn => 9,
            Refusal::Memory => 10,
            Refusal::Material => 11,
            Refusal::Number => 12,
            Refusal::Bit => 13,
            Refusal::Again => 14,
            Refusal::ZeroSeed => 15,
            Refusal::Colourless => 16,
            Refusal::Foreign => 17,
        }
    }

    // The gate that it names.
    pub fn gate(self) -> Option<u16>
        ensures { result ≡ gate_of self }
    {
        match self {
            Refusal::UnknownForm(g)
            | Refusal::PastArray(g)
            | Refusal::TooManyWires(g)
            | Refusal::NotMade(g)
            | Refusal::WideRow(g) => Some(g),
            _ => None,
        }
    }
}

impl fmt::Display for Refusal {
    ghost output = { λ why. Some (refusal_text why) };

    fn fmt<W: fmt::Write>(&self, f: &mut fmt::Formatter<W>) -> fmt::Result {
        let number = self.number();
        write!(f, "refused {number}")
    }
}

impl Error for Refusal {}
