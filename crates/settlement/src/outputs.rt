// The outputs: the colours that are shown, by which decode finds the bits.
ghost use Rattle.std.specs.Prelude.{◌≡◌, ℕ, cond, List, None, nat_lt};
ghost use Rattle.circuit.specs.Check.{circuit_refusal};
ghost use Rattle.circuit.specs.Gates.{output_of};
ghost use Rattle.circuit.specs.Parts.{parts_of};
ghost use Rattle.labels.specs.Lists.{places};
ghost use Rattle.memory.specs.Copy.{open_copy};
ghost use Rattle.garbler.specs.declared.record.Garbler.{Garbler};
ghost use Rattle.evaluator.specs.declared.record.Evaluator.{Evaluator};
ghost use Rattle.settlement.specs.declared.call.Call.TheVariants.{Colours, Decode, Certify};
ghost use Rattle.settlement.specs.declared.past.Past.{Past};
ghost use Rattle.settlement.specs.State.{held_by};
ghost use Rattle.settlement.specs.Made.{Made, SameLoans};

use crate::inputs::label_or_zero;
use crate::lent::Lent;
use crate::line::Answer;
use crate::past::Past;
use circuit::check::read;
use circuit::words::word_at;
use evaluator::record::Evaluator;
use garbler::record::Garbler;
use labels::kind::Label;

// Shows the outputs' colours, in so many bytes.
pub fn colours<L: Label>(
    garbler: &Garbler<L>,
    circuit: &[u8],
    lent: &mut Lent<L>,
    past: &mut Past,
    length: usize,
) -> Answer<L>
    ensures made { (F E : L → ℕ → L) (evaluator : Evaluator) (m n : ℕ) → Made L.kind F E circuit.now (Colours length) (held_by garbler.now evaluator lent.old past.old m n) result (held_by garbler.now evaluator lent.new past.new m n) }
    ensures loans { SameLoans lent.old lent.new }
{
    let room = length.min(lent.colours.len());
    match garbler.colours(circuit, &mut *lent.zeros, &mut lent.colours[..room]) {
        Ok(()) => {
            past.shown = Some(room);
            Answer::Coloured
        }
        Err(why) => Answer::Refused(why),
    }
}

// Decodes by the colours that were shown, in so many bytes.
pub fn decode<L: Label>(
    evaluator: &Evaluator,
    copy: &[u8],
    lent: &mut Lent<L>,
    past: &mut Past,
    length: usize,
) -> Answer<L>
    ensures made { (F E : L → ℕ → L) (garbler : Garbler L) (circuit : List ℕ) (m n : ℕ) → copy.now ≡ open_copy circuit → Made L.kind F E circuit (Decode length) (held_by garbler evaluator.now lent.old past.old m n) result (held_by garbler evaluator.now lent.new past.new m n) }
    ensures loans { SameLoans lent.old lent.new }
{
    let seen = past.shown.unwrap_or(0).min(lent.colours.len());
    let room = length.min(lent.outputs.len());
    let decoded = evaluator.decode(
        copy,
        &mut *lent.labels,
        &mut lent.colours[..seen],
        &mut lent.outputs[..room],
    );
    match decoded {
        Ok(()) => {
            past.decoded = true;
            Answer::Decoded
        }
        Err(why) => Answer::Refused(why),
    }
}

// The label of an output, or the zero label where the number is too large.
fn output_label<L: Label>(copy: &[u8], labels: &[L], output: usize) -> L
    requires { circuit_refusal copy.now ≡ None }
    ensures { result ≡ cond (nat_lt output (parts_of copy.now).sizes.outputs) (places L.kind labels.now (output_of (parts_of copy.now) output)) L.kind.zero }
{
    let c = read(copy).unwrap();
    if output < usize::from(c.arrays.sizes.outputs) {
        label_or_zero(labels, usize::from(word_at(c.arrays.outputs, output)))
    } else {
        L::zero()
    }
}

// Certifies the evaluator's label of an output.
pub fn certify<L: Label>(
    garbler: &Garbler<L>,
    circuit: &[u8],
    copy: &[u8],
    lent: &Lent<L>,
    output: usize,
) -> Answer<L>
    requires { circuit_refusal copy.now ≡ None }
    ensures made { (F E : L → ℕ → L) (evaluator : Evaluator) (past : Past) (m n : ℕ) → copy.now ≡ open_copy circuit.now → Made L.kind F E circuit.now (Certify output) (held_by garbler.now evaluator lent.now past m n) result (held_by garbler.now evaluator lent.now past m n) }
{
    let label = output_label(copy, lent.labels, output);
    match garbler.certify(circuit, lent.zeros, output, label) {
        Ok(bit) => Answer::Certified(bit),
        Err(why) => Answer::Refused(why),
    }
}
