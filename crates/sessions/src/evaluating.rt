// An evaluator and what it is lent.
ghost use Rattle.std.specs.Prelude.{◌≤◌, length};

use crate::answer::Answer;
use crate::call::{EvaluatorCall, On};
use crate::evaluator_side::EvaluatorSide;
use crate::lent::Lent;
use crate::numbered::Numbered;
use circuit::refusal::Refusal;
use hashes::counted::Counted;
use hashes::function::LabelFunction;
use hashes::hash::LabelHash;
use std::alloc::{AllocError, Global};

pub struct Evaluating<L> {
    pub side: EvaluatorSide,
    pub lent: Lent<L>,
}

impl<L: Numbered> Evaluating<L> {
    pub fn new(lent: Lent<L>) -> Evaluating<L> {
        Evaluating {
            side: EvaluatorSide::new(),
            lent,
        }
    }

    // Lays out the bytes and the scratch that a call is lent.
    pub fn prepare(&mut self, heap: Global, call: &EvaluatorCall) -> Result<(), AllocError> {
        match call {
            EvaluatorCall::Decode { .. } => self.lent.bytes = vec![in heap; 7; 4]?,
            EvaluatorCall::Evaluate { .. } => self.lent.scratch = vec![in heap; L::used(); 260]?,
            _ => {}
        }
        Ok(())
    }

    // Makes a call.
    pub fn make<F: LabelFunction<L>>(
        &mut self,
        call: &EvaluatorCall,
    ) -> Result<Answer<L>, Refusal> {
        match call {
            EvaluatorCall::Join { on } => self.join(*on),
            EvaluatorCall::Deliver { on, input, label } => self.deliver(*on, *input, *label),
            EvaluatorCall::Evaluate {
                on,
                scratch,
                material,
            } => self.evaluate::<F>(*on, *scratch, *material),
            EvaluatorCall::Decode {
                on,
                colours,
                length,
            } => {
                let count = colours.count.min(colours.bytes.len());
                self.decode(*on, &colours.bytes[..count], *length)
            }
            EvaluatorCall::Missing => Ok(Answer::Missing(self.side.evaluator.missing())),
            EvaluatorCall::State => Ok(Answer::State(self.side.evaluator.state())),
            EvaluatorCall::Wipe { wires } => {
                let wires = self.lent.front(*wires);
                self.side.wipe(&mut self.lent.wires[..wires])
            }
        }
    }

    fn join(&mut self, on: On) -> Result<Answer<L>, Refusal> {
        let wires = self.lent.front(on.wires);
        let wires = &mut self.lent.wires[..wires];
        self.side.join(on.circuit, wires)?;
        Ok(Answer::Joined)
    }

    fn deliver(&mut self, on: On, input: usize, label: u16) -> Result<Answer<L>, Refusal> {
        let wires = self.lent.front(on.wires);
        let wires = &mut self.lent.wires[..wires];
        self.side.deliver(on.circuit, wires, input, L::of(label))?;
        Ok(Answer::Delivered)
    }

    fn evaluate<F: LabelFunction<L>>(
        &mut self,
        on: On,
        scratch: usize,
        material: usize,
    ) -> Result<Answer<L>, Refusal> {
        let lent = &mut self.lent;
        let mut hash: Counted<F> = Counted::starting_at(lent.count);
        let wires = lent.front(on.wires);
        let material = material.min(lent.material.len());
        let scratch = scratch.min(lent.scratch.len());
        let evaluated = self.side.evaluate(
            &mut hash,
            on.circuit,
            &mut lent.wires[..wires],
            &lent.material[..material],
            &mut lent.scratch[..scratch],
        );
        lent.count = hash.count();
        evaluated?;
        Ok(Answer::Evaluated)
    }

    fn decode(&mut self, on: On, colours: &[u8], length: usize) -> Result<Answer<L>, Refusal> {
        let lent = &mut self.lent;
        let wires = lent.front(on.wires);
        let length = length.min(lent.bytes.len());
        let wires = &lent.wires[..wires];
        let outputs = &mut lent.bytes[..length];
        self.side
            .evaluator
            .decode(on.circuit, wires, colours, outputs)?;
        Ok(Answer::Decoded)
    }

    // Wipes the side where it is open.
    pub fn end(self, wires: &mut [L])
        requires { 8 ≤ length wires.old }
    {
        let Evaluating { side, lent: _ } = self;
        side.end(wires);
    }
}
