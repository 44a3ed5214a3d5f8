// The labels that the evaluator lacks, and its state.
ghost use Rattle.std.specs.Prelude.{◌≡◌, true, false, OnSome, IfSome, IfNone};
ghost use Rattle.parties.specs.Marks.{all_marked, Lowest};
ghost use Rattle.parties.specs.States.{state_of};

use crate::record::Evaluator;
use parties::progress::Progress;
use parties::state::State;

// The lowest input of a side without a mark.
fn unmarked(progress: &Progress) -> Option<u16>
    ensures all { IfNone result (all_marked progress.now.side.marks progress.now.side.sizes.inputs ≡ true) }
    ensures lowest { IfSome result (λ i. Lowest progress.now.side.marks progress.now.side.sizes.inputs i) }
{
    (0..progress.side.sizes.inputs).find(|input| !progress.side.marks[usize::from(*input)])
}

impl Evaluator {
    // The lowest input without a label, or none; none where the side has ended.
    pub fn missing(&self) -> Option<u16>
        ensures all { IfNone result ((self.now.progress.side.ended ≡ false → all_marked self.now.progress.side.marks self.now.progress.side.sizes.inputs ≡ true)) }
        ensures begun { OnSome result (self.now.progress.side.ended ≡ false) }
        ensures lowest { IfSome result (λ i. Lowest self.now.progress.side.marks self.now.progress.side.sizes.inputs i) }
    {
        if self.progress.side.ended {
            return None;
        }
        unmarked(&self.progress)
    }

    // What it does next.
    pub fn state(&self) -> State
        ensures { result ≡ state_of self.now.progress.side }
    {
        if self.progress.side.ended {
            return State::Ended;
        }
        match self.missing() {
            Some(_) => State::Collecting,
            None if self.progress.side.next < self.progress.side.sizes.gates => State::Evaluating,
            None => State::Finished,
        }
    }
}
