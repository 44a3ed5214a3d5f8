// The garbler's record, and the token of its opening.
ghost use Rattle.std.specs.Prelude.{◌≡◌};
ghost use Rattle.parties.specs.Marks.{is_marked};
ghost use Rattle.parties.specs.Side.{unused};

use labels::kind::Label;
use parties::progress::Progress;
use steps::secrets::Secrets;

// A side that garbles: how far it has come through the circuit, its offset and its seed.
#[derive(Drop)]
pub struct Garbler<L> {
    pub(crate) progress: Progress,
    pub(crate) secrets: Secrets<L>,
}

// Handed out by an accepted opening. Only `wipe` takes it: it can neither be let go nor spent twice.
// A type of its own, so that it cannot end an evaluator.
pub struct GarblerToken(pub(crate) ());

impl<L: Label> Garbler<L> {
    // A new side counts as ended.
    pub fn new() -> Garbler<L>
        ensures side { result.progress.side ≡ unused }
        ensures offset { result.secrets.offset ≡ L.kind.zero }
        ensures seed { result.secrets.seed ≡ L.kind.zero }
    {
        let secrets = Secrets {
            seed: L::zero(),
            offset: L::zero(),
        };
        Garbler {
            progress: Progress::new(),
            secrets,
        }
    }

    // The bytes of its material so far.
    pub fn bytes_written(&self) -> usize
        ensures { result ≡ self.now.progress.side.bytes }
    {
        self.progress.side.bytes
    }

    // The inputs of its circuit.
    pub fn inputs(&self) -> u16
        ensures { result ≡ self.now.progress.side.sizes.inputs }
    {
        self.progress.side.sizes.inputs
    }

    // Whether an input is encoded.
    pub fn has_encoded(&self, input: usize) -> bool
        ensures { result ≡ is_marked self.now.progress.side.marks input }
    {
        match self.progress.side.marks.get(input) {
            Some(mark) => *mark,
            None => false,
        }
    }
}
