// The end of a settlement: both sides are wiped.
ghost use Rattle.std.specs.Prelude.{◌≡◌, length, None};
ghost use Rattle.parties.specs.Refusing.{garbler_wipe_refusal, evaluator_wipe_refusal};
ghost use Rattle.parties.specs.Side.{unused};

use evaluator::record::{Evaluator, EvaluatorToken};
use garbler::record::{Garbler, GarblerToken};
use labels::kind::Label;
use settlement::lent::Lent;

// Spends both tokens.
pub fn wipe_both<L: Label>(
    garbler: &mut Garbler<L>,
    evaluator: &mut Evaluator,
    tokens: (GarblerToken, EvaluatorToken),
    lent: &mut Lent<L>,
)
    requires garbler { garbler_wipe_refusal garbler.old.progress.side (length lent.old.zeros.now) ≡ None }
    requires evaluator { evaluator_wipe_refusal evaluator.old.progress.side (length lent.old.labels.now) ≡ None }
    ensures garbler_ended { garbler.new.progress.side ≡ unused }
    ensures evaluator_ended { evaluator.new.progress.side ≡ unused }
{
    let (garbler_token, evaluator_token) = tokens;
    garbler.wipe(garbler_token, lent.zeros).unwrap();
    evaluator.wipe(evaluator_token, lent.labels).unwrap();
}
