// The garbler's opening.
ghost use Rattle.std.specs.Prelude.{◌≡◌, ◌+◌, ◌≤◌, true, false, length, replicate, Some, None, OnOk, OnErr, IfOk, IfErr, ◌==◌};
ghost use Rattle.hashes.specs.Count.{counted};
ghost use Rattle.hashes.specs.Draws.{offset as drawn_offset};
ghost use Rattle.circuit.specs.Lent.{parts_in};
ghost use Rattle.circuit.specs.Parts.{parts_of};
ghost use Rattle.circuit.specs.Passed.{Passed};
ghost use Rattle.circuit.specs.Refusals.{number_of};
ghost use Rattle.parties.specs.Refusing.{seed_refusal, open_refusal};
ghost use Rattle.garbler.specs.Garbling.{Opened, denied_count};

use crate::record::{Garbler, GarblerToken};
use circuit::passed::Circuit;
use circuit::refusal::Refusal;
use hashes::draws::draw;
use hashes::hash::LabelHash;
use labels::kind::Label;
use memory::seed::{SeedGuard, all_zero};
use memory::start::open_wires;
use parties::progress::Progress;
use parties::side::Side;
use parties::turn::may_begin;
use steps::secrets::Secrets;

// The circuit, once nothing but the offset stands against an opening.
fn may_open<'a, L: Label>(
    side: &Side,
    circuit: &'a [u8],
    wires: usize,
    seed: &[u8],
) -> Result<Circuit<'a>, Refusal>
    ensures accepted { OnOk result (seed_refusal side.now circuit.now L.kind wires seed.now ≡ None) }
    ensures long { OnOk result (length seed.now ≡ L.kind.width) }
    ensures passed { IfOk result (λ c. Passed circuit.now (parts_in c.arrays) c.wires) }
    ensures room { IfOk result (λ c. c.wires ≤ wires) }
    ensures refused { IfErr result (λ why. seed_refusal side.now circuit.now L.kind wires seed.now ≡ Some why) }
    ensures other { IfErr result (λ why. (number_of why == 16) ≡ false) }
{
    let c = may_begin(side.ended, circuit, wires)?;
    if seed.len() != L::width() {
        return Err(Refusal::Memory);
    }
    if all_zero(seed) {
        return Err(Refusal::ZeroSeed);
    }
    Ok(c)
}

// The offset, which must have its colour.
fn draw_offset<L: Label, H: LabelHash<L>>(h: &mut H, seed: L) -> Result<L, Refusal>
    ensures drawn { IfOk result (λ d. d ≡ drawn_offset (H.means h.old) seed L.kind) }
    ensures coloured { OnOk result (L.kind.colour (drawn_offset (H.means h.old) seed L.kind) ≡ true) }
    ensures refused { IfErr result (λ why. why ≡ Refusal.Colourless) }
    ensures colourless { OnErr result (L.kind.colour (drawn_offset (H.means h.old) seed L.kind) ≡ false) }
    ensures kept { H.means h.new ≡ H.means h.old }
    ensures count { H.calls h.new ≡ counted (H.calls h.old) 1 }
{
    let offset = draw(h, seed, 0).raise();
    if offset.colour() {
        Ok(offset)
    } else {
        Err(Refusal::Colourless)
    }
}

impl<L: Label> Garbler<L> {
    // Begins with a circuit: draws the offset and the inputs' zero labels from the seed, whose bytes are then zero in any case.
    pub fn open<H: LabelHash<L>>(
        &mut self,
        h: &mut H,
        circuit: &[u8],
        seed: &mut [u8],
        wires: &mut [L],
    ) -> Result<GarblerToken, Refusal>
        ensures cleared { seed.new ≡ replicate (length seed.old) 0 }
        ensures kept { H.means h.new ≡ H.means h.old }
        ensures accepted { OnOk result (open_refusal self.old.progress.side circuit.now L.kind (H.means h.old) (length wires.old) seed.old ≡ None) }
        ensures opened { OnOk result (Opened L.kind (H.means h.old) (parts_of circuit.now) seed.old self.new.progress.side self.new.secrets.offset self.new.secrets.seed wires.old wires.new) }
        ensures count { OnOk result (H.calls h.new ≡ counted (H.calls h.old) (1 + (parts_of circuit.now).sizes.inputs)) }
        ensures refused { IfErr result (λ why. open_refusal self.old.progress.side circuit.now L.kind (H.means h.old) (length wires.old) seed.old ≡ Some why) }
        ensures same { OnErr result (self.new ≡ self.old) }
        ensures wires { OnErr result (wires.new ≡ wires.old) }
        ensures denied { IfErr result (λ why. H.calls h.new ≡ denied_count (H.calls h.old) why) }
    {
        let guard = SeedGuard::new(seed);
        let side = &self.progress.side;
        let passed = may_open::<L>(side, circuit, wires.len(), guard.bytes())?;
        let seed = L::read(guard.bytes());
        let offset = draw_offset(h, seed)?;
        open_wires(h, seed, wires, passed.arrays.sizes.inputs, passed.wires);
        *self = Garbler {
            progress: Progress::start(passed),
            secrets: Secrets { seed, offset },
        };
        Ok(GarblerToken(()))
    }
}
