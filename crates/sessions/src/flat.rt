// A label kind of one byte whose raising does nothing, so that an offset may lack its colour.
ghost use Rattle.sessions.specs.Flats.{flat};

use hashes::function::LabelFunction;
use labels::kind::Label;

#[derive(Clone, Copy)]
pub struct Flat {
    pub byte: u8,
}

impl Label for Flat {
    ghost kind = { flat };

    fn zero() -> Flat {
        Flat { byte: 0 }
    }

    fn xor(self, other: Flat) -> Flat {
        Flat {
            byte: self.byte ^ other.byte,
        }
    }

    fn colour(self) -> bool {
        self.byte % 2 == 1
    }

    fn raise(self) -> Flat {
        self
    }

    fn same(self, other: Flat) -> bool {
        self.byte == other.byte
    }

    fn low_bits(self, m: u32) -> u16 {
        (u32::from(self.byte) % (1 << m)) as u16
    }

    fn width() -> usize {
        1
    }

    fn write(self, out: &mut [u8]) {
        out[0] = self.byte;
    }

    fn read(bytes: &[u8]) -> Flat {
        Flat { byte: bytes[0] }
    }
}

// The function that answers the label itself, so that the offset is the seed.
#[derive(Clone, Copy)]
pub struct SameFunction;

impl LabelFunction<Flat> for SameFunction {
    ghost means = { λ label _. label };

    fn answer(label: Flat, _tweak: u64) -> Flat {
        label
    }
}
