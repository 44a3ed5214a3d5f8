// A settlement from its beginning to its end.
ghost use Rattle.std.specs.Prelude.{◌≡◌, ℕ, ◌+◌, ◌≤◌, ◌++◌, length, drop, replicate, Some, None, OnOk, OnErr, IfErr};
ghost use Rattle.circuit.specs.Refusals.{or_else};
ghost use Rattle.circuit.specs.declared.refusal.Refusal.{Refusal};
ghost use Rattle.memory.specs.Copy.{open_copy};
ghost use Rattle.parties.specs.Refusing.{open_refusal, join_refusal};
ghost use Rattle.settlement.specs.declared.past.Past.{Past};
ghost use Rattle.settlement.specs.State.{no_past, held_by};
ghost use Rattle.settlement.specs.Made.{SameLoans};
ghost use Rattle.settlement.specs.Refused.{supply_of, own_refusal, settle_refusal, Denied};
ghost use Rattle.settlement.specs.Settled.{Begins, Ended};

use crate::call::Call;
use crate::lent::Lent;
use crate::line::Line;
use crate::run::run;
use circuit::refusal::Refusal;
use evaluator::record::{Evaluator, EvaluatorToken};
use garbler::record::{Garbler, GarblerToken};
use hashes::hash::LabelHash;
use labels::kind::Label;
use memory::copy;

// Whether the settlement's own memory is enough; the copy is then written.
fn may_begin(
    circuit: &[u8],
    copy: &mut [u8],
    calls: usize,
    lines: usize,
    sent: usize,
) -> Result<(), Refusal>
    ensures accepted { OnOk result (own_refusal circuit.now (supply_of calls lines sent (length copy.old)) ≡ None) }
    ensures copied { OnOk result (copy.new ≡ open_copy circuit.now ++ drop (length circuit.now) copy.old) }
    ensures lines { OnOk result (calls ≤ lines) }
    ensures sent { OnOk result (256 ≤ sent) }
    ensures room { OnOk result (length circuit.now ≤ length copy.old) }
    ensures refused { IfErr result (λ why. own_refusal circuit.now (supply_of calls lines sent (length copy.old)) ≡ Some why) }
    ensures same { OnErr result (copy.new ≡ copy.old) }
{
    if lines < calls || sent < 256 {
        return Err(Refusal::Memory);
    }
    copy::open_copy(circuit, copy)
}

// Opens the garbler and joins the evaluator; where joining is refused the garbler is wiped.
fn begin<L: Label, G: LabelHash<L>>(
    circuit: &[u8],
    copy: &[u8],
    seed: &mut [u8],
    garbler: &mut Garbler<L>,
    evaluator: &mut Evaluator,
    h: &mut G,
    lent: &mut Lent<L>,
) -> Result<(GarblerToken, EvaluatorToken), Refusal>
    requires { copy.now ≡ open_copy circuit.now }
    ensures cleared { seed.new ≡ replicate (length seed.old) 0 }
    ensures kept { G.means h.new ≡ G.means h.old }
    ensures loans { SameLoans lent.old lent.new }
    ensures accepted { OnOk result (or_else (open_refusal garbler.old.progress.side circuit.now L.kind (G.means h.old) (length lent.old.zeros.now) seed.old) (join_refusal evaluator.old.progress.side (open_copy circuit.now) (length lent.old.labels.now)) ≡ None) }
    ensures begun { OnOk result ((past : Past) (n : ℕ) → Begins L.kind (G.means h.old) circuit.now seed.old (held_by garbler.old evaluator.old lent.old past (G.calls h.old) n) (held_by garbler.new evaluator.new lent.new past (G.calls h.new) n)) }
    ensures refused { IfErr result (λ why. or_else (open_refusal garbler.old.progress.side circuit.now L.kind (G.means h.old) (length lent.old.zeros.now) seed.old) (join_refusal evaluator.old.progress.side (open_copy circuit.now) (length lent.old.labels.now)) ≡ Some why) }
    ensures denied { IfErr result (λ why. (past : Past) (n : ℕ) → Denied L.kind (G.means h.old) circuit.now seed.old None why (held_by garbler.old evaluator.old lent.old past (G.calls h.old) n) (held_by garbler.new evaluator.new lent.new past (G.calls h.new) n)) }
{
    let token = garbler.open(h, circuit, seed, lent.zeros)?;
    match evaluator.join(copy, lent.labels) {
        Ok(joined) => Ok((token, joined)),
        Err(why) => {
            garbler.wipe(token, lent.zeros).unwrap();
            Err(why)
        }
    }
}

// Opens, joins, and makes each call that stands, with a line for each; hands out both tokens.
pub fn settle<L: Label, G: LabelHash<L>, H: LabelHash<L>>(
    circuit: &[u8],
    copy: &mut [u8],
    seed: &mut [u8],
    garbler: &mut Garbler<L>,
    evaluator: &mut Evaluator,
    garbler_hash: &mut G,
    evaluator_hash: &mut H,
    lent: &mut Lent<L>,
    calls: &[Call],
    lines: &mut [Line<L>],
) -> Result<(GarblerToken, EvaluatorToken), Refusal>
    ensures cleared { seed.new ≡ replicate (length seed.old) 0 }
    ensures garbler_kept { G.means garbler_hash.new ≡ G.means garbler_hash.old }
    ensures evaluator_kept { H.means evaluator_hash.new ≡ H.means evaluator_hash.old }
    ensures zeros_lent { lent.new.zeros.ghost_name ≡ lent.old.zeros.ghost_name }
    ensures labels_lent { lent.new.labels.ghost_name ≡ lent.old.labels.ghost_name }
    ensures sent_lent { lent.new.sent.ghost_name ≡ lent.old.sent.ghost_name }
    ensures scratch_lent { lent.new.scratch.ghost_name ≡ lent.old.scratch.ghost_name }
    ensures material_lent { lent.new.material.ghost_name ≡ lent.old.material.ghost_name }
    ensures colours_lent { lent.new.colours.ghost_name ≡ lent.old.colours.ghost_name }
    ensures outputs_lent { lent.new.outputs.ghost_name ≡ lent.old.outputs.ghost_name }
    ensures accepted { OnOk result (settle_refusal L.kind (G.means garbler_hash.old) circuit.now seed.old garbler.old.progress.side evaluator.old.progress.side (length lent.old.zeros.now) (length lent.old.labels.now) (supply_of (length calls.now) (length lines.old) (length lent.old.sent.now) (length copy.old)) ≡ None) }
    ensures copied { own_refusal circuit.now (supply_of (length calls.now) (length lines.old) (length lent.old.sent.now) (length copy.old)) ≡ None → copy.new ≡ open_copy circuit.now ++ drop (length circuit.now) copy.old }
    ensures uncopied { (why : Refusal) → own_refusal circuit.now (supply_of (length calls.now) (length lines.old) (length lent.old.sent.now) (length copy.old)) ≡ Some why → copy.new ≡ copy.old }
    ensures settled { OnOk result (Ended L.kind (G.means garbler_hash.old) (H.means evaluator_hash.old) circuit.now seed.old calls.now lines.new (held_by garbler.old evaluator.old lent.old no_past (G.calls garbler_hash.old) (H.calls evaluator_hash.old)) (λ past. held_by garbler.new evaluator.new lent.new past (G.calls garbler_hash.new) (H.calls evaluator_hash.new))) }
    ensures past { OnOk result (drop (length calls.now) lines.new ≡ drop (length calls.now) lines.old) }
    ensures refused { IfErr result (λ why. settle_refusal L.kind (G.means garbler_hash.old) circuit.now seed.old garbler.old.progress.side evaluator.old.progress.side (length lent.old.zeros.now) (length lent.old.labels.now) (supply_of (length calls.now) (length lines.old) (length lent.old.sent.now) (length copy.old)) ≡ Some why) }
    ensures denied { IfErr result (λ why. Denied L.kind (G.means garbler_hash.old) circuit.now seed.old (own_refusal circuit.now (supply_of (length calls.now) (length lines.old) (length lent.old.sent.now) (length copy.old))) why (held_by garbler.old evaluator.old lent.old no_past (G.calls garbler_hash.old) (H.calls evaluator_hash.old)) (held_by garbler.new evaluator.new lent.new no_past (G.calls garbler_hash.new) (H.calls evaluator_hash.new))) }
    ensures lines { OnErr result (lines.new ≡ lines.old) }
{
    let room = lent.sent.len();
    if let Err(why) = may_begin(circuit, copy, calls.len(), lines.len(), room) {
        seed.fill(0);
        return Err(why);
    }
    let copy = &copy[..circuit.len()];
    let tokens = begin(circuit, copy, seed, garbler, evaluator, garbler_hash, lent)?;
    run(
        garbler,
        evaluator,
        garbler_hash,
        evaluator_hash,
        circuit,
        copy,
        lent,
        calls,
        lines,
    );
    Ok(tokens)
}
