// What came of a call, as text.

use crate::answer::Answer;
use crate::lent::{Lent, same_labels, zeros};
use crate::numbered::Numbered;
use circuit::refusal::Refusal;
use parties::state::State;
use std::alloc::AllocError;

fn state_name(state: State) -> &'static str {
    match state {
        State::Collecting => "collecting",
        State::Evaluating => "evaluating",
        State::Finished => "finished",
        State::Ended => "ended",
    }
}

fn add_accepted<L: Numbered>(text: &mut String, answer: Answer<L>) -> Result<(), AllocError> {
    match answer {
        Answer::Opened => text.push_str("opened"),
        Answer::Garbled(bits) => write!(text, "garbled {bits}"),
        Answer::Encoded(label) => {
            text.push_str("label ")?;
            label.add_to(text)
        }
        Answer::Coloured => text.push_str("coloured"),
        Answer::Certified(bit) => write!(text, "bit {}", u8::from(bit)),
        Answer::Joined => text.push_str("joined"),
        Answer::Delivered => text.push_str("delivered"),
        Answer::Evaluated => text.push_str("evaluated"),
        Answer::Decoded => text.push_str("decoded"),
        Answer::Missing(Some(input)) => write!(text, "{input}"),
        Answer::Missing(None) => text.push_str("none"),
        Answer::State(state) => text.push_str(state_name(state)),
        Answer::Wiped => text.push_str("wiped"),
        Answer::NoToken => text.push_str("no token"),
    }
}

fn add_answer<L: Numbered>(
    text: &mut String,
    answer: Result<Answer<L>, Refusal>,
) -> Result<(), AllocError> {
    text.push_str(": ")?;
    match answer {
        Ok(answer) => add_accepted(text, answer),
        Err(why) => write!(text, "{why}"),
    }
}

fn add_bytes(text: &mut String, name: &str, bytes: &[u8]) -> Result<(), AllocError> {
    write!(text, "; {name} ")?;
    for byte in bytes {
        write!(text, "{byte:02X}")?;
    }
    Ok(())
}

fn add_labels<L: Numbered>(text: &mut String, name: &str, labels: &[L]) -> Result<(), AllocError> {
    write!(text, "; {name}")?;
    for label in labels {
        text.push_str(" ")?;
        label.add_to(text)?;
    }
    Ok(())
}

// How many labels are zero at its front, or all labels where it is not as before past these.
fn add_scratch<L: Numbered>(
    text: &mut String,
    before: &[L],
    after: &[L],
) -> Result<(), AllocError> {
    let zeros = zeros(after);
    match (before.get(zeros..), after.get(zeros..)) {
        (Some(old), Some(new)) if same_labels(old, new) => write!(text, "; scratch {zeros} zero"),
        _ => add_labels(text, "scratch", after),
    }
}

// What a call changed, each as a whole.
fn add_changes<L: Numbered>(
    text: &mut String,
    name: &str,
    before: &Lent<L>,
    after: &Lent<L>,
) -> Result<(), AllocError> {
    if before.bytes != after.bytes {
        add_bytes(text, name, after.bytes.as_slice())?;
    }
    if !same_labels(before.wires.as_slice(), after.wires.as_slice()) {
        add_labels(text, "wires", after.wires.as_slice())?;
    }
    if before.material != after.material {
        add_bytes(text, "material", after.material.as_slice())?;
    }
    if !same_labels(before.scratch.as_slice(), after.scratch.as_slice()) {
        add_scratch(text, before.scratch.as_slice(), after.scratch.as_slice())?;
    }
    if before.count != after.count {
        write!(text, "; count {}", after.count)?;
    }
    Ok(())
}

// What came of a call: its answer, and what it changed of what its side is lent.
pub fn add_outcome<L: Numbered>(
    text: &mut String,
    answer: Result<Answer<L>, Refusal>,
    name: &str,
    before: &Lent<L>,
    after: &Lent<L>,
) -> Result<(), AllocError> {
    add_answer(text, answer)?;
    add_changes(text, name, before, after)
}
