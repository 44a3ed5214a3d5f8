// The circuits of the input, each under its name.

use anyhow::Context;
use memory::copy::open_copy;
use std::alloc::Global;
use words::Words;

#[derive(Drop)]
struct Named<'a> {
    name: &'a str,
    bytes: Vec<u8>,
}

#[derive(Drop)]
pub struct Circuits<'a> {
    named: Vec<Named<'a>>,
}

// A word of the input, and how much of what it stands for is lent: `NAME:24`, or all of it without a number.
pub fn cut(word: &str) -> anyhow::Result<(&str, usize)> {
    match word.split_once(':') {
        Some((front, count)) => {
            let count = count.parse().context(format_args!("reading {word:?}"))?;
            Ok((front, count))
        }
        None => Ok((word, usize::MAX)),
    }
}

impl<'a> Circuits<'a> {
    // Reads the lines `circuit NAME HEX` and `copy NAME OF`; the others are for others.
    pub fn read(heap: Global, input: &'a str) -> anyhow::Result<Circuits<'a>> {
        let mut circuits = Circuits {
            named: Vec::new(heap),
        };
        for line in input.lines() {
            circuits
                .read_line(heap, line)
                .context(format_args!("in {line:?}"))?;
        }
        Ok(circuits)
    }

    fn read_line(&mut self, heap: Global, line: &'a str) -> anyhow::Result<()> {
        let mut words = Words::new(line);
        let kind = words.word();
        if kind != "circuit" && kind != "copy" {
            return Ok(());
        }
        let name = words.word();
        let bytes = if kind == "circuit" {
            hex::decode(heap, words.word())?
        } else {
            self.copy(heap, words.word())?
        };
        words.end()?;
        self.named.push(Named { name, bytes })?;
        Ok(())
    }

    // The open copy of a circuit.
    fn copy(&self, heap: Global, name: &str) -> anyhow::Result<Vec<u8>> {
        let circuit = self.find(name)?;
        let mut copy = vec![in heap; 7; circuit.len()]?;
        open_copy(circuit, copy.as_mut_slice())?;
        Ok(copy)
    }

    fn find(&self, name: &str) -> anyhow::Result<&[u8]> {
        let named = self.named.iter().find(|named| named.name == name);
        let named = named.context(format_args!("no circuit {name:?}"))?;
        Ok(named.bytes.as_slice())
    }

    // The circuit of a call: its bytes, or the first so many of them.
    pub fn front(&self, word: &str) -> anyhow::Result<&[u8]> {
        let (name, count) = cut(word)?;
        let circuit = self.find(name)?;
        Ok(&circuit[..count.min(circuit.len())])
    }
}
