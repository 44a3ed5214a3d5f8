// A whole settlement: settle, with the calls of one.
ghost use Rattle.std.specs.Prelude.{◌≡◌, ℕ, List, length, drop, ◌++◌, replicate, Some, None, OnOk, OnErr, IfErr};
ghost use Rattle.circuit.specs.Parts.{parts_of};
ghost use Rattle.circuit.specs.Gates.{wires_in};
ghost use Rattle.parties.specs.Side.{unused};
ghost use Rattle.parties.specs.Refusing.{open_refusal, garbler_wipe_refusal, evaluator_wipe_refusal};
ghost use Rattle.memory.specs.Copy.{open_copy};
ghost use Rattle.circuit.specs.declared.refusal.Refusal.{Refusal};
ghost use Rattle.settlement.specs.State.{no_past, held_by};
ghost use Rattle.settlement.specs.Refused.{supply_of, own_refusal, settle_refusal, Denied};
ghost use Rattle.settlement.specs.Settled.{Ended};
ghost use Rattle.exchange.specs.Planned.{Planned};
ghost use Rattle.exchange.specs.Outcome.{Outcome};

use circuit::refusal::Refusal;
use evaluator::record::{Evaluator, EvaluatorToken};
use garbler::record::{Garbler, GarblerToken};
use hashes::counted::Counted;
use hashes::function::LabelFunction;
use labels::kind::Label;
use settlement::call::Call;
use settlement::lent::Lent;
use settlement::line::Line;
use settlement::settle::settle;

// Settles under the function F, each side with a new hash of its own; hands out both tokens.
// What `settle` promises of a settlement is said again.
// Where the settlement is planned to be whole, every call is accepted, and all that both sides then hold is given.
pub fn run<L: Label, F: LabelFunction<L>>(
    circuit: &[u8],
    copy: &mut [u8],
    seed: &mut [u8],
    garbler: &mut Garbler<L>,
    evaluator: &mut Evaluator,
    lent: &mut Lent<L>,
    calls: &[Call],
    lines: &mut [Line<L>],
) -> Result<(GarblerToken, EvaluatorToken), Refusal>
    ensures cleared { seed.new ≡ replicate (length seed.old) 0 }
    ensures zeros_lent { lent.new.zeros.ghost_name ≡ lent.old.zeros.ghost_name }
    ensures labels_lent { lent.new.labels.ghost_name ≡ lent.old.labels.ghost_name }
    ensures sent_lent { lent.new.sent.ghost_name ≡ lent.old.sent.ghost_name }
    ensures scratch_lent { lent.new.scratch.ghost_name ≡ lent.old.scratch.ghost_name }
    ensures material_lent { lent.new.material.ghost_name ≡ lent.old.material.ghost_name }
    ensures colours_lent { lent.new.colours.ghost_name ≡ lent.old.colours.ghost_name }
    ensures outputs_lent { lent.new.outputs.ghost_name ≡ lent.old.outputs.ghost_name }
    ensures accepted { OnOk result (settle_refusal L.kind F.means circuit.now seed.old garbler.old.progress.side evaluator.old.progress.side (length lent.old.zeros.now) (length lent.old.labels.now) (supply_of (length calls.now) (length lines.old) (length lent.old.sent.now) (length copy.old)) ≡ None) }
    ensures refused { IfErr result (λ why. settle_refusal L.kind F.means circuit.now seed.old garbler.old.progress.side evaluator.old.progress.side (length lent.old.zeros.now) (length lent.old.labels.now) (supply_of (length calls.now) (length lines.old) (length lent.old.sent.now) (length copy.old)) ≡ Some why) }
    ensures copied { own_refusal circuit.now (supply_of (length calls.now) (length lines.old) (length lent.old.sent.now) (length copy.old)) ≡ None → copy.new ≡ open_copy circuit.now ++ drop (length circuit.now) copy.old }
    ensures uncopied { (why : Refusal) → own_refusal circuit.now (supply_of (length calls.now) (length lines.old) (length lent.old.sent.now) (length copy.old)) ≡ Some why → copy.new ≡ copy.old }
    ensures lines { OnErr result (lines.new ≡ lines.old) }
    ensures past { OnOk result (drop (length calls.now) lines.new ≡ drop (length calls.now) lines.old) }
    ensures settled { OnOk result ((m : ℕ) × (n : ℕ) × Ended L.kind F.means F.means circuit.now seed.old calls.now lines.new (held_by garbler.old evaluator.old lent.old no_past 0 0) (λ past. held_by garbler.new evaluator.new lent.new past m n)) }
    ensures denied { IfErr result (λ why. (m : ℕ) × (n : ℕ) × Denied L.kind F.means circuit.now seed.old (own_refusal circuit.now (supply_of (length calls.now) (length lines.old) (length lent.old.sent.now) (length copy.old))) why (held_by garbler.old evaluator.old lent.old no_past 0 0) (held_by garbler.new evaluator.new lent.new no_past m n)) }
    ensures outcome { OnOk result ((bits : List ℕ) → Planned L.kind circuit.now bits copy.old garbler.old.progress.side evaluator.old.progress.side lent.old calls.now lines.old → Outcome L.kind F.means (L.kind.from seed.old) (parts_of circuit.now) bits lent.new lines.new) }
    ensures opened { OnOk result ((bits : List ℕ) → Planned L.kind circuit.now bits copy.old garbler.old.progress.side evaluator.old.progress.side lent.old calls.now lines.old → open_refusal unused circuit.now L.kind F.means (wires_in (parts_of circuit.now)) seed.old ≡ None) }
    ensures garbler_wipes { OnOk result (garbler_wipe_refusal garbler.new.progress.side (length lent.new.zeros.now) ≡ None) }
    ensures evaluator_wipes { OnOk result (evaluator_wipe_refusal evaluator.new.progress.side (length lent.new.labels.now) ≡ None) }
    ensures opening { IfErr result (λ why. (bits : List ℕ) → Planned L.kind circuit.now bits copy.old garbler.old.progress.side evaluator.old.progress.side lent.old calls.now lines.old → open_refusal unused circuit.now L.kind F.means (wires_in (parts_of circuit.now)) seed.old ≡ Some why) }
{
    let mut garbler_hash: Counted<F> = Counted::starting_at(0);
    let mut evaluator_hash: Counted<F> = Counted::starting_at(0);
    settle(
        circuit,
        copy,
        seed,
        garbler,
        evaluator,
        &mut garbler_hash,
        &mut evaluator_hash,
        lent,
        calls,
        lines,
    )
}
