// An evaluator, and the token that ends it once it has joined.
ghost use Rattle.std.specs.Prelude.{◌≡◌, ◌≤◌, false, length};
ghost use Rattle.std.specs.Option.{ForSome};

use crate::answer::Answer;
use circuit::refusal::Refusal;
use evaluator::record::{Evaluator, EvaluatorToken};
use hashes::hash::LabelHash;
use labels::kind::Label;

pub struct EvaluatorSide {
    pub evaluator: Evaluator,
    token: Option<EvaluatorToken>,
    ghost open: { ForSome token (λ _. evaluator.progress.side.ended ≡ false) },
    ghost room: { ForSome token (λ _. evaluator.progress.side.wires ≤ 8) },
}

impl EvaluatorSide {
    pub fn new() -> EvaluatorSide {
        EvaluatorSide {
            evaluator: Evaluator::new(),
            token: None,
        }
    }

    // Where there is a token the side has joined, so that no second one comes.
    pub fn join<L: Label>(&mut self, circuit: &[u8], wires: &mut [L]) -> Result<(), Refusal>
        requires { length wires.old ≤ 8 }
    {
        let token = self.evaluator.join(circuit, wires)?;
        match self.token.replace(token) {
            None => Ok(()),
            Some(_second) => unreachable!(),
        }
    }

    // By `?`, here and below: whether it is accepted or refused, the side is then known.
    pub fn deliver<L: Label>(
        &mut self,
        circuit: &[u8],
        wires: &mut [L],
        input: usize,
        label: L,
    ) -> Result<(), Refusal> {
        self.evaluator.deliver(circuit, wires, input, label)?;
        Ok(())
    }

    pub fn evaluate<L: Label, H: LabelHash<L>>(
        &mut self,
        h: &mut H,
        circuit: &[u8],
        wires: &mut [L],
        material: &[u8],
        scratch: &mut [L],
    ) -> Result<(), Refusal> {
        self.evaluator
            .evaluate(h, circuit, wires, material, scratch)?;
        Ok(())
    }

    // Offers the token to the side, which hands it back where it refuses.
    pub fn wipe<L: Label>(&mut self, wires: &mut [L]) -> Result<Answer<L>, Refusal> {
        let Some(token) = self.token.take() else {
            return Ok(Answer::NoToken);
        };
        match self.evaluator.wipe(token, wires) {
            Ok(()) => Ok(Answer::Wiped),
            Err((why, token)) => match self.token.replace(token) {
                None => Err(why),
                Some(_second) => unreachable!(),
            },
        }
    }

    // Offers the token to another side, which has ended.
    pub fn wipe_other<L: Label>(&mut self, wires: &mut [L]) -> Result<Answer<L>, Refusal> {
        let Some(token) = self.token.take() else {
            return Ok(Answer::NoToken);
        };
        match Evaluator::new().wipe(token, wires) {
            Ok(()) => Ok(Answer::Wiped),
            Err((why, token)) => match self.token.replace(token) {
                None => Err(why),
                Some(_second) => unreachable!(),
            },
        }
    }

    // Ends the side where it has joined.
    pub fn end<L: Label>(self, wires: &mut [L])
        requires { 8 ≤ length wires.old }
    {
        let EvaluatorSide {
            mut evaluator,
            token,
        } = self;
        if let Some(token) = token {
            evaluator.wipe(token, wires).unwrap();
        }
    }
}
