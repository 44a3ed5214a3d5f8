// A settlement on memory of its own.

use crate::parts::Parts;
use crate::room::Room;
use circuit::refusal::Refusal;
use evaluator::record::Evaluator;
use exchange::ending::wipe_both;
use garbler::record::Garbler;
use hashes::counted::Counted;
use hashes::function::LabelFunction;
use hashes::hash::LabelHash;
use labels::kind::Label;
use settlement::call::Call;
use settlement::lent::lend;
use settlement::line::Line;
use settlement::settle::settle;

// Makes such calls on two new sides, and wipes both; answers the counts of their hashes.
pub fn settled<L: Label, F: LabelFunction<L>>(
    parts: &Parts,
    room: &mut Room<L>,
    calls: &[Call],
    lines: &mut [Line<L>],
) -> Result<(u64, u64), Refusal> {
    let mut garbler = Garbler::new();
    let mut evaluator = Evaluator::new();
    let mut garbler_hash: Counted<F> = Counted::starting_at(parts.counts.0);
    let mut evaluator_hash: Counted<F> = Counted::starting_at(parts.counts.1);
    let mut lent = lend(
        room.zeros.as_mut_slice(),
        room.labels.as_mut_slice(),
        room.sent.as_mut_slice(),
        room.scratch.as_mut_slice(),
        room.material.as_mut_slice(),
        room.colours.as_mut_slice(),
        room.outputs.as_mut_slice(),
    );
    let tokens = settle(
        parts.circuit.as_slice(),
        room.copy.as_mut_slice(),
        room.seed.as_mut_slice(),
        &mut garbler,
        &mut evaluator,
        &mut garbler_hash,
        &mut evaluator_hash,
        &mut lent,
        calls,
        lines,
    )?;
    wipe_both(&mut garbler, &mut evaluator, tokens, &mut lent);
    Ok((garbler_hash.count(), evaluator_hash.count()))
}
