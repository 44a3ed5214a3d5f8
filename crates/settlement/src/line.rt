// A line of a settlement: what came of one call.
ghost use Rattle.std.specs.Prelude.{◌≡◌};
ghost use Rattle.settlement.specs.declared.line.Answer.TheVariants.{NotMade};

use circuit::refusal::Refusal;

#[derive(Clone, Copy)]
pub enum Answer<L> {
    // The call does not stand, and was not made.
    NotMade,
    Refused(Refusal),
    // The bits of the gate's material, and the bytes written.
    Garbled { bits: usize, bytes: usize },
    Encoded(L),
    Delivered,
    // The bytes read.
    Evaluated { bytes: usize },
    Coloured,
    Decoded,
    // The output's bit.
    Certified(bool),
}

// The answer, and the counts of both hashes after it.
#[derive(Clone, Copy)]
pub struct Line<L> {
    pub answer: Answer<L>,
    pub garbler_count: u64,
    pub evaluator_count: u64,
}

impl<L> Line<L> {
    // Of a call that is not made yet.
    pub fn unmade() -> Line<L>
        ensures answer { result.answer ≡ NotMade }
        ensures garbler_count { result.garbler_count ≡ 0 }
        ensures evaluator_count { result.evaluator_count ≡ 0 }
    {
        Line {
            answer: Answer::NotMade,
            garbler_count: 0,
            evaluator_count: 0,
        }
    }
}
