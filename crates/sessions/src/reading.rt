// From a line of the input to what it asks for.

use crate::call::{EvaluatorCall, Front, GarblerCall, On, Task};
use crate::circuits::{Circuits, cut};
use anyhow::{Context, bail};
use std::alloc::Global;
use words::Words;

fn on<'a>(circuits: &'a Circuits, words: &mut Words) -> anyhow::Result<On<'a>> {
    Ok(On {
        circuit: circuits.front(words.word())?,
        wires: words.size()?,
    })
}

fn label(words: &mut Words) -> anyhow::Result<u16> {
    let word = words.word();
    u16::from_str_radix(word, 16).context(format_args!("reading {word:?}"))
}

// `HEX`, or `HEX:2` for its first two bytes.
fn front(heap: Global, words: &mut Words) -> anyhow::Result<Front> {
    let (digits, count) = cut(words.word())?;
    let bytes = hex::decode(heap, digits)?;
    Ok(Front { bytes, count })
}

fn garbler_call<'a>(
    heap: Global,
    circuits: &'a Circuits,
    name: &str,
    words: &mut Words,
) -> anyhow::Result<GarblerCall<'a>> {
    let on = on(circuits, words)?;
    let call = match name {
        "open" => GarblerCall::Open {
            on,
            seed: front(heap, words)?,
        },
        "garble" => GarblerCall::Garble {
            on,
            scratch: words.size()?,
            material: words.size()?,
        },
        "encode" => GarblerCall::Encode {
            on,
            input: words.size()?,
            bit: words.byte()?,
        },
        "colours" => GarblerCall::Colours {
            on,
            length: words.size()?,
        },
        _ => GarblerCall::Certify {
            on,
            output: words.size()?,
            label: label(words)?,
        },
    };
    Ok(call)
}

fn evaluator_call<'a>(
    heap: Global,
    circuits: &'a Circuits,
    name: &str,
    words: &mut Words,
) -> anyhow::Result<EvaluatorCall<'a>> {
    let on = on(circuits, words)?;
    let call = match name {
        "join" => EvaluatorCall::Join { on },
        "deliver" => EvaluatorCall::Deliver {
            on,
            input: words.size()?,
            label: label(words)?,
        },
        "evaluate" => EvaluatorCall::Evaluate {
            on,
            scratch: words.size()?,
            material: words.size()?,
        },
        _ => EvaluatorCall::Decode {
            on,
            colours: front(heap, words)?,
            length: words.size()?,
        },
    };
    Ok(call)
}

// `wipe garbler WIRES`, or `wipe other garbler WIRES`; so too for the evaluator.
fn wipe<'a>(words: &mut Words) -> anyhow::Result<Task<'a>> {
    let first = words.word();
    let party = if first == "other" {
        words.word()
    } else {
        first
    };
    let wires = words.size()?;
    match (first, party) {
        ("garbler", _) => Ok(Task::Garbler(GarblerCall::Wipe { wires })),
        ("evaluator", _) => Ok(Task::Evaluator(EvaluatorCall::Wipe { wires })),
        ("other", "garbler") => Ok(Task::OtherGarbler { wires }),
        ("other", "evaluator") => Ok(Task::OtherEvaluator { wires }),
        _ => bail!("{party:?} is no party"),
    }
}

// What a line asks for. The circuits are read before.
pub fn read_task<'a>(heap: Global, circuits: &'a Circuits, line: &str) -> anyhow::Result<Task<'a>> {
    let mut words = Words::new(line);
    let name = words.word();
    let task = match name {
        "" | "#" | "circuit" | "copy" => return Ok(Task::Nothing),
        "counts" => Task::Counts(words.count()?, words.count()?),
        "send" => Task::Send,
        "material" => Task::Material(hex::decode(heap, words.word())?),
        "open" | "garble" | "encode" | "colours" | "certify" => {
            Task::Garbler(garbler_call(heap, circuits, name, &mut words)?)
        }
        "join" | "deliver" | "evaluate" | "decode" => {
            Task::Evaluator(evaluator_call(heap, circuits, name, &mut words)?)
        }
        "missing" => Task::Evaluator(EvaluatorCall::Missing),
        "state" => Task::Evaluator(EvaluatorCall::State),
        "wipe" => wipe(&mut words)?,
        _ => bail!("{name:?} is no call"),
    };
    words.end()?;
    Ok(task)
}
