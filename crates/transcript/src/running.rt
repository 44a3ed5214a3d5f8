// From a settlement's parts to its transcript.

use crate::parts::{HashName, Parts};
use crate::room::Room;
use crate::settling::settled;
use crate::writing::{add_begun, add_line, refused};
use hashes::aes_hash::AesFunction;
use hashes::function::LabelFunction;
use hashes::paper::PaperFunction;
use hashes::sha_hash::ShaFunction;
use labels::kind::Label;
use labels::long::Long;
use labels::paper::Paper;
use settlement::line::Line;
use std::alloc::{AllocError, Global};

// The text of a settlement that was run.
fn text_of<L: Label>(
    heap: Global,
    parts: &Parts,
    room: &Room<L>,
    opening: (u64, u64),
    lines: &[Line<L>],
) -> Result<String, AllocError> {
    let mut text = String::new(heap);
    add_begun(&mut text, opening)?;
    for (call, line) in parts.calls.iter().zip(lines.iter()) {
        add_line(heap, &mut text, room, *call, *line)?;
    }
    Ok(text)
}

// The transcript over labels L and a function F. A settlement of no calls shows the counts after the opening.
fn transcript_of<L: Label, F: LabelFunction<L>>(
    heap: Global,
    parts: &Parts,
) -> Result<String, AllocError> {
    let mut first: Room<L> = Room::new(heap, parts)?;
    let mut room: Room<L> = Room::new(heap, parts)?;
    let mut lines: Vec<Line<L>> = vec![in heap; Line::unmade(); parts.calls.len()]?;
    let calls = parts.calls.as_slice();
    let opening = match settled::<L, F>(parts, &mut first, &calls[..0], &mut lines[..0]) {
        Ok(counts) => counts,
        Err(why) => return refused(heap, why),
    };
    match settled::<L, F>(parts, &mut room, calls, lines.as_mut_slice()) {
        Ok(_) => text_of(heap, parts, &room, opening, lines.as_slice()),
        Err(why) => refused(heap, why),
    }
}

// The transcript of a settlement.
pub fn transcript(heap: Global, parts: &Parts) -> Result<String, AllocError> {
    match parts.hash {
        HashName::Paper => transcript_of::<Paper, PaperFunction>(heap, parts),
        HashName::Aes => transcript_of::<Long, AesFunction>(heap, parts),
        HashName::Sha => transcript_of::<Long, ShaFunction>(heap, parts),
    }
}
