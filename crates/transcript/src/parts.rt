// The input: the parts of a settlement, a line each, and a line for each of its calls.

use crate::calls::read_call;
use anyhow::{Context, bail, ensure};
use settlement::call::Call;
use std::alloc::Global;
use std::str::Lines;
use words::Words;

// The longest wire memory or material memory that is made.
const MOST: usize = 1 << 20;

#[derive(Clone, Copy)]
pub enum HashName {
    Paper,
    Aes,
    Sha,
}

#[derive(Drop)]
pub struct Parts {
    pub hash: HashName,
    pub circuit: Vec<u8>,
    pub seed: Vec<u8>,
    // The lengths of both wire memories, the garbler's first, and of the material memory.
    pub wires: (usize, usize),
    pub material: usize,
    // The counts that the hashes come with, the garbler's first.
    pub counts: (u64, u64),
    pub calls: Vec<Call>,
}

// The words behind the name of the next line.
fn next_line<'a>(lines: &mut Lines<'a>, name: &str) -> anyhow::Result<Words<'a>> {
    let line = lines.next().context(format_args!("no line {name:?}"))?;
    let mut words = Words::new(line);
    words.name(name)?;
    Ok(words)
}

fn read_hash(lines: &mut Lines) -> anyhow::Result<HashName> {
    let mut words = next_line(lines, "hash")?;
    let hash = match words.word() {
        "paper" => HashName::Paper,
        "aes" => HashName::Aes,
        "sha" => HashName::Sha,
        other => bail!("{other:?} is no hash"),
    };
    words.end()?;
    Ok(hash)
}

fn read_bytes(heap: Global, lines: &mut Lines, name: &str) -> anyhow::Result<Vec<u8>> {
    let mut words = next_line(lines, name)?;
    let bytes = hex::decode(heap, words.word())?;
    words.end()?;
    Ok(bytes)
}

// A length that is not beyond all use.
fn length(words: &mut Words) -> anyhow::Result<usize> {
    let length = words.size()?;
    ensure!(length <= MOST, "a memory of {length} is too long");
    Ok(length)
}

fn read_wires(lines: &mut Lines) -> anyhow::Result<(usize, usize)> {
    let mut words = next_line(lines, "wires")?;
    let wires = (length(&mut words)?, length(&mut words)?);
    words.end()?;
    Ok(wires)
}

fn read_material(lines: &mut Lines) -> anyhow::Result<usize> {
    let mut words = next_line(lines, "material")?;
    let material = length(&mut words)?;
    words.end()?;
    Ok(material)
}

fn read_counts(lines: &mut Lines) -> anyhow::Result<(u64, u64)> {
    let mut words = next_line(lines, "counts")?;
    let counts = (words.count()?, words.count()?);
    words.end()?;
    Ok(counts)
}

fn read_calls(heap: Global, lines: Lines) -> anyhow::Result<Vec<Call>> {
    let mut calls = Vec::new(heap);
    for line in lines {
        calls.push(read_call(line)?)?;
    }
    Ok(calls)
}

impl Parts {
    // The parts stand in this order; after them come the calls.
    pub fn read(heap: Global, input: &str) -> anyhow::Result<Parts> {
        let mut lines = input.lines();
        Ok(Parts {
            hash: read_hash(&mut lines)?,
            circuit: read_bytes(heap, &mut lines, "circuit")?,
            seed: read_bytes(heap, &mut lines, "seed")?,
            wires: read_wires(&mut lines)?,
            material: read_material(&mut lines)?,
            counts: read_counts(&mut lines)?,
            calls: read_calls(heap, lines)?,
        })
    }

    // The settlements of an input, an empty line between two.
    pub fn read_all(heap: Global, input: &str) -> anyhow::Result<Vec<Parts>> {
        let mut all = Vec::new(heap);
        for part in input.split("\n\n") {
            all.push(Parts::read(heap, part)?)?;
        }
        Ok(all)
    }
}
