// Plays a section, and writes what came of each line.

use crate::call::{EvaluatorCall, GarblerCall, Task};
use crate::evaluating::Evaluating;
use crate::flat::{Flat, SameFunction};
use crate::garbling::Garbling;
use crate::lent::Lent;
use crate::numbered::Numbered;
use crate::sections::{Entry, Labels, Section};
use crate::writing::add_outcome;
use hashes::function::LabelFunction;
use hashes::paper::PaperFunction;
use labels::paper::Paper;
use std::alloc::{AllocError, Global};

fn garbler_call<L: Numbered, F: LabelFunction<L>>(
    heap: Global,
    text: &mut String,
    garbling: &mut Garbling<L>,
    call: &GarblerCall,
) -> Result<(), AllocError> {
    garbling.prepare(heap, call)?;
    let before = garbling.lent.copy()?;
    let answer = garbling.make::<F>(call);
    let name = match call {
        GarblerCall::Open { .. } => "seed",
        _ => "colours",
    };
    add_outcome(text, answer, name, &before, &garbling.lent)
}

fn evaluator_call<L: Numbered, F: LabelFunction<L>>(
    heap: Global,
    text: &mut String,
    evaluating: &mut Evaluating<L>,
    call: &EvaluatorCall,
) -> Result<(), AllocError> {
    evaluating.prepare(heap, call)?;
    let before = evaluating.lent.copy()?;
    let answer = evaluating.make::<F>(call);
    add_outcome(text, answer, "outputs", &before, &evaluating.lent)
}

// The other side comes with memory of its own.
fn other_garbler<L: Numbered>(
    heap: Global,
    text: &mut String,
    garbling: &mut Garbling<L>,
    wires: usize,
) -> Result<(), AllocError> {
    let before: Lent<L> = Lent::new(heap)?;
    let mut other: Lent<L> = Lent::new(heap)?;
    let wires = other.front(wires);
    let answer = garbling.side.wipe_other(&mut other.wires[..wires]);
    add_outcome(text, answer, "bytes", &before, &other)
}

fn other_evaluator<L: Numbered>(
    heap: Global,
    text: &mut String,
    evaluating: &mut Evaluating<L>,
    wires: usize,
) -> Result<(), AllocError> {
    let before: Lent<L> = Lent::new(heap)?;
    let mut other: Lent<L> = Lent::new(heap)?;
    let wires = other.front(wires);
    let answer = evaluating.side.wipe_other(&mut other.wires[..wires]);
    add_outcome(text, answer, "bytes", &before, &other)
}

fn play_entry<L: Numbered, F: LabelFunction<L>>(
    heap: Global,
    text: &mut String,
    garbling: &mut Garbling<L>,
    evaluating: &mut Evaluating<L>,
    entry: &Entry,
) -> Result<(), AllocError> {
    text.push_str(entry.line)?;
    match &entry.task {
        Task::Nothing => {}
        Task::Counts(garbler, evaluator) => {
            garbling.lent.count = *garbler;
            evaluating.lent.count = *evaluator;
        }
        Task::Send => evaluating.lent.material = garbling.lent.material.clone()?,
        Task::Material(material) => evaluating.lent.material = material.clone()?,
        Task::Garbler(call) => garbler_call::<L, F>(heap, text, garbling, call)?,
        Task::Evaluator(call) => evaluator_call::<L, F>(heap, text, evaluating, call)?,
        Task::OtherGarbler { wires } => other_garbler(heap, text, garbling, *wires)?,
        Task::OtherEvaluator { wires } => other_evaluator(heap, text, evaluating, *wires)?,
    }
    text.push_str("\n")
}

fn play_entries<L: Numbered, F: LabelFunction<L>>(
    heap: Global,
    text: &mut String,
    garbling: &mut Garbling<L>,
    evaluating: &mut Evaluating<L>,
    entries: &[Entry],
) -> Result<(), AllocError> {
    for entry in entries {
        play_entry::<L, F>(heap, text, garbling, evaluating, entry)?;
    }
    Ok(())
}

// On two new sides, which are wiped at the end.
fn play_session<L: Numbered, F: LabelFunction<L>>(
    heap: Global,
    text: &mut String,
    entries: &[Entry],
) -> Result<(), AllocError> {
    let garblers: Lent<L> = Lent::new(heap)?;
    let evaluators: Lent<L> = Lent::new(heap)?;
    // Both are wiped on memory of their own, with as many wires as a call is lent at most.
    let mut zeros: Vec<L> = vec![in heap; L::zero(); 8]?;
    let mut labels: Vec<L> = vec![in heap; L::zero(); 8]?;
    let mut garbling: Garbling<L> = Garbling::new(garblers);
    let mut evaluating: Evaluating<L> = Evaluating::new(evaluators);
    let played = play_entries::<L, F>(heap, text, &mut garbling, &mut evaluating, entries);
    garbling.end(zeros.as_mut_slice());
    evaluating.end(labels.as_mut_slice());
    played
}

// What stands before the first session is only printed.
fn add_lines(text: &mut String, entries: &[Entry]) -> Result<(), AllocError> {
    for entry in entries {
        writeln!(text, "{}", entry.line)?;
    }
    Ok(())
}

pub fn play(heap: Global, text: &mut String, section: &Section) -> Result<(), AllocError> {
    let entries = section.entries.as_slice();
    match section.labels {
        Labels::None => add_lines(text, entries),
        Labels::Paper => play_session::<Paper, PaperFunction>(heap, text, entries),
        Labels::Flat => play_session::<Flat, SameFunction>(heap, text, entries),
    }
}
