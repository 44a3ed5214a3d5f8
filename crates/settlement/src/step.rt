// One call of a settlement.
ghost use Rattle.std.specs.Prelude.{◌≡◌, ℕ, ◌≤◌, length, None};
ghost use Rattle.circuit.specs.Check.{circuit_refusal};
ghost use Rattle.memory.specs.Copy.{open_copy};
ghost use Rattle.evaluator.specs.declared.record.Evaluator.{Evaluator};
ghost use Rattle.settlement.specs.declared.lent.Lent.{Lent};
ghost use Rattle.settlement.specs.State.{held_by};
ghost use Rattle.settlement.specs.Stands.{stands};
ghost use Rattle.settlement.specs.Made.{Made, SameLoans, Step};

use crate::call::Call;
use crate::inputs::{deliver, encode};
use crate::lent::Lent;
use crate::line::Answer;
use crate::next_gate::{evaluate, garble};
use crate::outputs::{certify, colours, decode};
use crate::past::Past;
use evaluator::record::Evaluator;
use garbler::record::Garbler;
use hashes::hash::LabelHash;
use labels::kind::Label;

// Whether a call stands.
fn stands<L: Label>(garbler: &Garbler<L>, past: Past, call: Call) -> bool
    ensures { (evaluator : Evaluator) (lent : Lent L) (m n : ℕ) → result ≡ stands (held_by garbler.now evaluator lent past m n) call }
{
    match call {
        Call::Deliver { input } => {
            input >= usize::from(garbler.inputs()) || garbler.has_encoded(input)
        }
        Call::Decode { length: _ } => past.shown.is_some(),
        Call::Certify { output: _ } => past.decoded,
        _ => true,
    }
}

// Makes a call. Its arguments are both sides and all that they work on.
fn make<L: Label, G: LabelHash<L>, H: LabelHash<L>>(
    garbler: &mut Garbler<L>,
    evaluator: &mut Evaluator,
    garbler_hash: &mut G,
    evaluator_hash: &mut H,
    circuit: &[u8],
    copy: &[u8],
    lent: &mut Lent<L>,
    past: &mut Past,
    call: Call,
) -> Answer<L>
    requires sent { 256 ≤ length lent.old.sent.now }
    requires passes { circuit_refusal (open_copy circuit.now) ≡ None }
    requires copied { copy.now ≡ open_copy circuit.now }
    ensures made { Made L.kind (G.means garbler_hash.old) (H.means evaluator_hash.old) circuit.now call (held_by garbler.old evaluator.old lent.old past.old (G.calls garbler_hash.old) (H.calls evaluator_hash.old)) result (held_by garbler.new evaluator.new lent.new past.new (G.calls garbler_hash.new) (H.calls evaluator_hash.new)) }
    ensures garbler_kept { G.means garbler_hash.new ≡ G.means garbler_hash.old }
    ensures evaluator_kept { H.means evaluator_hash.new ≡ H.means evaluator_hash.old }
    ensures loans { SameLoans lent.old lent.new }
{
    match call {
        Call::Garble { scratch, material } => {
            garble(garbler, garbler_hash, circuit, lent, scratch, material)
        }
        Call::Encode { input, bit } => encode(garbler, circuit, lent, input, bit),
        Call::Deliver { input } => deliver(garbler, evaluator, copy, lent, input),
        Call::Evaluate { scratch } => {
            let written = garbler.bytes_written();
            evaluate(evaluator, evaluator_hash, copy, lent, scratch, written)
        }
        Call::Colours { length } => colours(garbler, circuit, lent, past, length),
        Call::Decode { length } => decode(evaluator, copy, lent, past, length),
        Call::Certify { output } => certify(garbler, circuit, copy, lent, output),
    }
}

// Makes a call if it stands.
pub fn step<L: Label, G: LabelHash<L>, H: LabelHash<L>>(
    garbler: &mut Garbler<L>,
    evaluator: &mut Evaluator,
    garbler_hash: &mut G,
    evaluator_hash: &mut H,
    circuit: &[u8],
    copy: &[u8],
    lent: &mut Lent<L>,
    past: &mut Past,
    call: Call,
) -> Answer<L>
    requires sent { 256 ≤ length lent.old.sent.now }
    requires passes { circuit_refusal (open_copy circuit.now) ≡ None }
    requires copied { copy.now ≡ open_copy circuit.now }
    ensures step { Step L.kind (G.means garbler_hash.old) (H.means evaluator_hash.old) circuit.now (held_by garbler.old evaluator.old lent.old past.old (G.calls garbler_hash.old) (H.calls evaluator_hash.old)) call result (held_by garbler.new evaluator.new lent.new past.new (G.calls garbler_hash.new) (H.calls evaluator_hash.new)) }
    ensures garbler_kept { G.means garbler_hash.new ≡ G.means garbler_hash.old }
    ensures evaluator_kept { H.means evaluator_hash.new ≡ H.means evaluator_hash.old }
    ensures loans { SameLoans lent.old lent.new }
{
    if !stands(garbler, *past, call) {
        return Answer::NotMade;
    }
    make(
        garbler,
        evaluator,
        garbler_hash,
        evaluator_hash,
        circuit,
        copy,
        lent,
        past,
        call,
    )
}
