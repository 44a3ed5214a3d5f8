// The next gate of either side.
ghost use Rattle.std.specs.Prelude.{◌≡◌, ℕ, List};
ghost use Rattle.memory.specs.Copy.{open_copy};
ghost use Rattle.garbler.specs.declared.record.Garbler.{Garbler};
ghost use Rattle.evaluator.specs.declared.record.Evaluator.{Evaluator};
ghost use Rattle.settlement.specs.declared.call.Call.TheVariants.{Garble, Evaluate};
ghost use Rattle.settlement.specs.declared.past.Past.{Past};
ghost use Rattle.settlement.specs.State.{held_by};
ghost use Rattle.settlement.specs.Made.{Made, SameLoans};

use crate::lent::Lent;
use crate::line::Answer;
use evaluator::record::Evaluator;
use garbler::record::Garbler;
use hashes::hash::LabelHash;
use labels::kind::Label;

// Garbles, with so much scratch and material.
pub fn garble<L: Label, G: LabelHash<L>>(
    garbler: &mut Garbler<L>,
    h: &mut G,
    circuit: &[u8],
    lent: &mut Lent<L>,
    scratch: usize,
    material: usize,
) -> Answer<L>
    ensures made { (E : L → ℕ → L) (evaluator : Evaluator) (past : Past) (count : ℕ) → Made L.kind (G.means h.old) E circuit.now (Garble scratch material) (held_by garbler.old evaluator lent.old past (G.calls h.old) count) result (held_by garbler.new evaluator lent.new past (G.calls h.new) count) }
    ensures loans { SameLoans lent.old lent.new }
    ensures kept { G.means h.new ≡ G.means h.old }
{
    let before = garbler.bytes_written();
    let scratch = scratch.min(lent.scratch.len());
    let material = material.min(lent.material.len());
    let written = garbler.garble(
        h,
        circuit,
        lent.zeros,
        &mut lent.material[..material],
        &mut lent.scratch[..scratch],
    );
    match written {
        Ok(bits) => Answer::Garbled {
            bits,
            bytes: garbler.bytes_written() - before,
        },
        Err(why) => Answer::Refused(why),
    }
}

// Evaluates, with so much scratch and the material that is written.
pub fn evaluate<L: Label, H: LabelHash<L>>(
    evaluator: &mut Evaluator,
    h: &mut H,
    copy: &[u8],
    lent: &mut Lent<L>,
    scratch: usize,
    written: usize,
) -> Answer<L>
    ensures made { (F : L → ℕ → L) (garbler : Garbler L) (circuit : List ℕ) (past : Past) (count : ℕ) → copy.now ≡ open_copy circuit → written ≡ garbler.progress.side.bytes → Made L.kind F (H.means h.old) circuit (Evaluate scratch) (held_by garbler evaluator.old lent.old past count (H.calls h.old)) result (held_by garbler evaluator.new lent.new past count (H.calls h.new)) }
    ensures loans { SameLoans lent.old lent.new }
    ensures kept { H.means h.new ≡ H.means h.old }
{
    let before = evaluator.bytes_read();
    let scratch = scratch.min(lent.scratch.len());
    let written = written.min(lent.material.len());
    let evaluated = evaluator.evaluate(
        h,
        copy,
        lent.labels,
        &mut lent.material[..written],
        &mut lent.scratch[..scratch],
    );
    match evaluated {
        Ok(()) => Answer::Evaluated {
            bytes: evaluator.bytes_read() - before,
        },
        Err(why) => Answer::Refused(why),
    }
}
