// The calls of a settlement, in turn.
ghost use Rattle.std.specs.Prelude.{◌≡◌, ◌≤◌, ◌<◌, length, drop, slice_set, None};
ghost use Rattle.circuit.specs.Check.{circuit_refusal};
ghost use Rattle.memory.specs.Copy.{open_copy};
ghost use Rattle.settlement.specs.State.{no_past, held_by};
ghost use Rattle.settlement.specs.Made.{SameLoans};
ghost use Rattle.settlement.specs.Followed.{Followed};

use crate::call::Call;
use crate::lent::Lent;
use crate::line::Line;
use crate::past::Past;
use crate::step::step;
use evaluator::record::Evaluator;
use garbler::record::Garbler;
use hashes::hash::LabelHash;
use labels::kind::Label;

// Writes line k.
fn write_line<L: Label>(lines: &mut [Line<L>], k: usize, line: Line<L>)
    requires { k < length lines.old }
    ensures { lines.new ≡ slice_set lines.old k line }
{
    lines[k] = line;
}

// Makes each call that stands, and writes a line for each; answers what went from one side to the other.
pub fn run<L: Label, G: LabelHash<L>, H: LabelHash<L>>(
    garbler: &mut Garbler<L>,
    evaluator: &mut Evaluator,
    garbler_hash: &mut G,
    evaluator_hash: &mut H,
    circuit: &[u8],
    copy: &[u8],
    lent: &mut Lent<L>,
    calls: &[Call],
    lines: &mut [Line<L>],
) -> Past
    requires sent { 256 ≤ length lent.old.sent.now }
    requires passes { circuit_refusal (open_copy circuit.now) ≡ None }
    requires copied { copy.now ≡ open_copy circuit.now }
    requires lines { length calls.now ≤ length lines.old }
    ensures followed { Followed L.kind (G.means garbler_hash.old) (H.means evaluator_hash.old) circuit.now calls.now lines.new (length calls.now) (held_by garbler.old evaluator.old lent.old no_past (G.calls garbler_hash.old) (H.calls evaluator_hash.old)) (held_by garbler.new evaluator.new lent.new result (G.calls garbler_hash.new) (H.calls evaluator_hash.new)) }
    ensures past { drop (length calls.now) lines.new ≡ drop (length calls.now) lines.old }
    ensures garbler_kept { G.means garbler_hash.new ≡ G.means garbler_hash.old }
    ensures evaluator_kept { H.means evaluator_hash.new ≡ H.means evaluator_hash.old }
    ensures loans { SameLoans lent.old lent.new }
{
    let mut past = Past {
        shown: None,
        decoded: false,
    };
    for k in 0..calls.len() {
        let call = calls[k];
        let answer = step(
            garbler,
            evaluator,
            garbler_hash,
            evaluator_hash,
            circuit,
            copy,
            lent,
            &mut past,
            call,
        );
        let line = Line {
            answer,
            garbler_count: garbler_hash.count(),
            evaluator_count: evaluator_hash.count(),
        };
        write_line(lines, k, line);
    }
    past
}
