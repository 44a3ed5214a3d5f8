// The input in sections: what stands before the first session, and each session.

use crate::call::Task;
use crate::circuits::Circuits;
use crate::reading::read_task;
use anyhow::{Context, bail, ensure};
use std::alloc::Global;
use words::Words;

// Whose labels a section's sides have.
#[derive(Clone, Copy)]
pub enum Labels {
    // Before the first session.
    None,
    Paper,
    Flat,
}

// A line, and what it asks for.
#[derive(Drop)]
pub struct Entry<'a> {
    pub line: &'a str,
    pub task: Task<'a>,
}

#[derive(Drop)]
pub struct Section<'a> {
    pub labels: Labels,
    pub entries: Vec<Entry<'a>>,
}

// The labels of the session that a line begins, or none.
fn begun(line: &str) -> anyhow::Result<Labels> {
    let mut words = Words::new(line);
    if words.word() != "session" {
        return Ok(Labels::None);
    }
    let labels = match words.word() {
        "paper" => Labels::Paper,
        "flat" => Labels::Flat,
        other => bail!("{other:?} is no label kind"),
    };
    words.end()?;
    Ok(labels)
}

fn add_line<'a>(
    heap: Global,
    circuits: &'a Circuits,
    sections: &mut Vec<Section<'a>>,
    line: &'a str,
) -> anyhow::Result<()> {
    let labels = begun(line)?;
    let mut task = Task::Nothing;
    if matches!(labels, Labels::None) {
        task = read_task(heap, circuits, line)?;
    } else {
        let entries = Vec::new(heap);
        sections.push(Section { labels, entries })?;
    }
    let section = sections.last_mut().context("no section")?;
    let waits = matches!(section.labels, Labels::None) && !matches!(task, Task::Nothing);
    ensure!(!waits, "a call before any session");
    section.entries.push(Entry { line, task })?;
    Ok(())
}

// Reads every line of the input.
pub fn read_sections<'a>(
    heap: Global,
    circuits: &'a Circuits,
    input: &'a str,
) -> anyhow::Result<Vec<Section<'a>>> {
    let mut sections = Vec::new(heap);
    sections.push(Section {
        labels: Labels::None,
        entries: Vec::new(heap),
    })?;
    for line in input.lines() {
        add_line(heap, circuits, &mut sections, line).context(format_args!("in {line:?}"))?;
    }
    Ok(sections)
}
