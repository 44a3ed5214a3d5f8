// A garbler and what it is lent.
ghost use Rattle.std.specs.Prelude.{◌≤◌, length};

use crate::answer::Answer;
use crate::call::{GarblerCall, On};
use crate::garbler_side::GarblerSide;
use crate::lent::Lent;
use crate::numbered::Numbered;
use circuit::refusal::Refusal;
use hashes::counted::Counted;
use hashes::function::LabelFunction;
use hashes::hash::LabelHash;
use std::alloc::{AllocError, Global};

pub struct Garbling<L> {
    pub side: GarblerSide<L>,
    pub lent: Lent<L>,
}

impl<L: Numbered> Garbling<L> {
    pub fn new(lent: Lent<L>) -> Garbling<L> {
        Garbling {
            side: GarblerSide::new(),
            lent,
        }
    }

    // Lays out the bytes and the scratch that a call is lent.
    pub fn prepare(&mut self, heap: Global, call: &GarblerCall) -> Result<(), AllocError> {
        match call {
            GarblerCall::Open { seed, .. } => self.lent.bytes = seed.bytes.clone()?,
            GarblerCall::Colours { .. } => self.lent.bytes = vec![in heap; 7; 4]?,
            GarblerCall::Garble { .. } => self.lent.scratch = vec![in heap; L::used(); 260]?,
            _ => {}
        }
        Ok(())
    }

    // Makes a call.
    pub fn make<F: LabelFunction<L>>(&mut self, call: &GarblerCall) -> Result<Answer<L>, Refusal> {
        match call {
            GarblerCall::Open { on, seed } => self.open::<F>(*on, seed.count),
            GarblerCall::Garble {
                on,
                scratch,
                material,
            } => self.garble::<F>(*on, *scratch, *material),
            GarblerCall::Encode { on, input, bit } => self.encode(*on, *input, *bit),
            GarblerCall::Colours { on, length } => self.colours(*on, *length),
            GarblerCall::Certify { on, output, label } => self.certify(*on, *output, *label),
            GarblerCall::Wipe { wires } => {
                let wires = self.lent.front(*wires);
                self.side.wipe(&mut self.lent.wires[..wires])
            }
        }
    }

    fn open<F: LabelFunction<L>>(&mut self, on: On, count: usize) -> Result<Answer<L>, Refusal> {
        let lent = &mut self.lent;
        let mut hash: Counted<F> = Counted::starting_at(lent.count);
        let count = count.min(lent.bytes.len());
        let wires = lent.front(on.wires);
        let opened = self.side.open(
            &mut hash,
            on.circuit,
            &mut lent.bytes[..count],
            &mut lent.wires[..wires],
        );
        lent.count = hash.count();
        opened?;
        Ok(Answer::Opened)
    }

    fn garble<F: LabelFunction<L>>(
        &mut self,
        on: On,
        scratch: usize,
        material: usize,
    ) -> Result<Answer<L>, Refusal> {
        let lent = &mut self.lent;
        let mut hash: Counted<F> = Counted::starting_at(lent.count);
        let wires = lent.front(on.wires);
        let material = material.min(lent.material.len());
        let scratch = scratch.min(lent.scratch.len());
        let garbled = self.side.garble(
            &mut hash,
            on.circuit,
            &mut lent.wires[..wires],
            &mut lent.material[..material],
            &mut lent.scratch[..scratch],
        );
        lent.count = hash.count();
        Ok(Answer::Garbled(garbled?))
    }

    fn encode(&mut self, on: On, input: usize, bit: u8) -> Result<Answer<L>, Refusal> {
        let wires = self.lent.front(on.wires);
        let wires = &self.lent.wires[..wires];
        let label = self.side.encode(on.circuit, wires, input, bit)?;
        Ok(Answer::Encoded(label))
    }

    fn colours(&mut self, on: On, length: usize) -> Result<Answer<L>, Refusal> {
        let lent = &mut self.lent;
        let wires = lent.front(on.wires);
        let length = length.min(lent.bytes.len());
        let wires = &lent.wires[..wires];
        let colours = &mut lent.bytes[..length];
        self.side.garbler.colours(on.circuit, wires, colours)?;
        Ok(Answer::Coloured)
    }

    fn certify(&self, on: On, output: usize, label: u16) -> Result<Answer<L>, Refusal> {
        let wires = self.lent.front(on.wires);
        let wires = &self.lent.wires[..wires];
        let label = L::of(label);
        let garbler = &self.side.garbler;
        let bit = garbler.certify(on.circuit, wires, output, label)?;
        Ok(Answer::Certified(bit))
    }

    // Wipes the side where it is open.
    pub fn end(self, wires: &mut [L])
        requires { 8 ≤ length wires.old }
    {
        let Garbling { side, lent: _ } = self;
        side.end(wires);
    }
}
