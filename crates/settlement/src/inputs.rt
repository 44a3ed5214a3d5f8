// The inputs: encode's label, which deliver carries.
ghost use Rattle.std.specs.Prelude.{◌≡◌, ℕ, ◌≤◌, cond, List, length, nat_lt};
ghost use Rattle.labels.specs.Lists.{places};
ghost use Rattle.memory.specs.Copy.{open_copy};
ghost use Rattle.evaluator.specs.declared.record.Evaluator.{Evaluator};
ghost use Rattle.settlement.specs.declared.call.Call.TheVariants.{Encode, Deliver};
ghost use Rattle.settlement.specs.declared.past.Past.{Past};
ghost use Rattle.settlement.specs.State.{held_by};
ghost use Rattle.settlement.specs.Made.{Made, SameLoans};

use crate::lent::Lent;
use crate::line::Answer;
use evaluator::record::Evaluator;
use garbler::record::Garbler;
use labels::kind::Label;

// Encodes, and keeps the label for deliver.
pub fn encode<L: Label>(
    garbler: &mut Garbler<L>,
    circuit: &[u8],
    lent: &mut Lent<L>,
    input: usize,
    bit: u8,
) -> Answer<L>
    requires { 256 ≤ length lent.old.sent.now }
    ensures made { (F E : L → ℕ → L) (evaluator : Evaluator) (past : Past) (m n : ℕ) → Made L.kind F E circuit.now (Encode input bit) (held_by garbler.old evaluator lent.old past m n) result (held_by garbler.new evaluator lent.new past m n) }
    ensures loans { SameLoans lent.old lent.new }
{
    match garbler.encode(circuit, &mut *lent.zeros, input, bit) {
        Ok(label) => {
            lent.sent[input] = label;
            Answer::Encoded(label)
        }
        Err(why) => Answer::Refused(why),
    }
}

// The label at a place, or the zero label past the last.
pub fn label_or_zero<L: Label>(labels: &[L], place: usize) -> L
    ensures { result ≡ places L.kind labels.now place }
{
    match labels.get(place) {
        Some(label) => *label,
        None => L::zero(),
    }
}

// The label that encode answered for an input, or the zero label where the number is too large.
fn sent_label<L: Label>(garbler: &Garbler<L>, sent: &[L], input: usize) -> L
    ensures { result ≡ cond (nat_lt input garbler.now.progress.side.sizes.inputs) (places L.kind sent.now input) L.kind.zero }
{
    if input < usize::from(garbler.inputs()) {
        label_or_zero(sent, input)
    } else {
        L::zero()
    }
}

// Delivers the label that encode answered.
pub fn deliver<L: Label>(
    garbler: &Garbler<L>,
    evaluator: &mut Evaluator,
    copy: &[u8],
    lent: &mut Lent<L>,
    input: usize,
) -> Answer<L>
    ensures made { (F E : L → ℕ → L) (circuit : List ℕ) (past : Past) (m n : ℕ) → copy.now ≡ open_copy circuit → Made L.kind F E circuit (Deliver input) (held_by garbler.now evaluator.old lent.old past m n) result (held_by garbler.now evaluator.new lent.new past m n) }
    ensures loans { SameLoans lent.old lent.new }
{
    let label = sent_label(garbler, &mut *lent.sent, input);
    match evaluator.deliver(copy, lent.labels, input, label) {
        Ok(()) => Answer::Delivered,
        Err(why) => Answer::Refused(why),
    }
}
