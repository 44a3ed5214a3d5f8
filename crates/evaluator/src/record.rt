// The evaluator's record, and the token of its joining.
ghost use Rattle.std.specs.Prelude.{◌≡◌};
ghost use Rattle.parties.specs.Side.{unused};

use parties::progress::Progress;

// A side that evaluates: how far it has come through the open copy of the circuit.
#[derive(Drop)]
pub struct Evaluator {
    pub(crate) progress: Progress,
}

// Handed out by an accepted joining. Only `wipe` takes it: it can neither be let go nor spent twice.
// A type of its own, so that it cannot end a garbler.
pub struct EvaluatorToken(pub(crate) ());

impl Evaluator {
    // A new side counts as ended.
    pub fn new() -> Evaluator
        ensures { result.progress.side ≡ unused }
    {
        Evaluator {
            progress: Progress::new(),
        }
    }

    // The bytes of the material that it has read.
    pub fn bytes_read(&self) -> usize
        ensures { result ≡ self.now.progress.side.bytes }
    {
        self.progress.side.bytes
    }
}
