// A garbler, and the token that ends it while it is open.
ghost use Rattle.std.specs.Prelude.{◌≡◌, ◌≤◌, false, length};
ghost use Rattle.std.specs.Option.{ForSome};

use crate::answer::Answer;
use circuit::refusal::Refusal;
use garbler::record::{Garbler, GarblerToken};
use hashes::hash::LabelHash;
use labels::kind::Label;

pub struct GarblerSide<L> {
    pub garbler: Garbler<L>,
    token: Option<GarblerToken>,
    ghost open: { ForSome token (λ _. garbler.progress.side.ended ≡ false) },
    ghost room: { ForSome token (λ _. garbler.progress.side.wires ≤ 8) },
}

impl<L: Label> GarblerSide<L> {
    pub fn new() -> GarblerSide<L> {
        GarblerSide {
            garbler: Garbler::new(),
            token: None,
        }
    }

    // Where there is a token the side is open, so that no second one comes.
    pub fn open<H: LabelHash<L>>(
        &mut self,
        h: &mut H,
        circuit: &[u8],
        seed: &mut [u8],
        wires: &mut [L],
    ) -> Result<(), Refusal>
        requires { length wires.old ≤ 8 }
    {
        let token = self.garbler.open(h, circuit, seed, wires)?;
        match self.token.replace(token) {
            None => Ok(()),
            Some(_second) => unreachable!(),
        }
    }

    // By `?`, here and below: whether it is accepted or refused, the side is then known.
    pub fn garble<H: LabelHash<L>>(
        &mut self,
        h: &mut H,
        circuit: &[u8],
        wires: &mut [L],
        material: &mut [u8],
        scratch: &mut [L],
    ) -> Result<usize, Refusal> {
        let bits = self.garbler.garble(h, circuit, wires, material, scratch)?;
        Ok(bits)
    }

    pub fn encode(
        &mut self,
        circuit: &[u8],
        wires: &[L],
        input: usize,
        bit: u8,
    ) -> Result<L, Refusal> {
        let label = self.garbler.encode(circuit, wires, input, bit)?;
        Ok(label)
    }

    // Offers the token to the side, which hands it back where it refuses.
    pub fn wipe(&mut self, wires: &mut [L]) -> Result<Answer<L>, Refusal> {
        let Some(token) = self.token.take() else {
            return Ok(Answer::NoToken);
        };
        match self.garbler.wipe(token, wires) {
            Ok(()) => Ok(Answer::Wiped),
            Err((why, token)) => match self.token.replace(token) {
                None => Err(why),
                Some(_second) => unreachable!(),
            },
        }
    }

    // Offers the token to another side, which has ended.
    pub fn wipe_other(&mut self, wires: &mut [L]) -> Result<Answer<L>, Refusal> {
        let Some(token) = self.token.take() else {
            return Ok(Answer::NoToken);
        };
        match Garbler::new().wipe(token, wires) {
            Ok(()) => Ok(Answer::Wiped),
            Err((why, token)) => match self.token.replace(token) {
                None => Err(why),
                Some(_second) => unreachable!(),
            },
        }
    }

    // Ends the side where it is open.
    pub fn end(self, wires: &mut [L])
        requires { 8 ≤ length wires.old }
    {
        let GarblerSide { mut garbler, token } = self;
        if let Some(token) = token {
            garbler.wipe(token, wires).unwrap();
        }
    }
}
