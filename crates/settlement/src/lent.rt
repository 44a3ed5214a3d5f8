// The memory that is lent to a settlement: both sides work in it, and what goes from one to the other lies there.
ghost use Rattle.std.specs.Prelude.{◌≡◌};

use labels::kind::Label;

#[derive(Drop)]
pub struct Lent<'a, L> {
    // The garbler's wire memory, and the evaluator's.
    pub zeros: &'a mut [L],
    pub labels: &'a mut [L],
    // The labels that encode answered, by input.
    pub sent: &'a mut [L],
    pub scratch: &'a mut [L],
    pub material: &'a mut [u8],
    pub colours: &'a mut [u8],
    pub outputs: &'a mut [u8],
}

// The memories under their names. A function of its own, since a struct of several new loans is not covered yet.
pub fn lend<'a, L: Label>(
    zeros: &'a mut [L],
    labels: &'a mut [L],
    sent: &'a mut [L],
    scratch: &'a mut [L],
    material: &'a mut [u8],
    colours: &'a mut [u8],
    outputs: &'a mut [u8],
) -> Lent<'a, L>
    ensures zeros { result.zeros.now ≡ zeros.old }
    ensures labels { result.labels.now ≡ labels.old }
    ensures sent { result.sent.now ≡ sent.old }
    ensures scratch { result.scratch.now ≡ scratch.old }
    ensures material { result.material.now ≡ material.old }
    ensures colours { result.colours.now ≡ colours.old }
    ensures outputs { result.outputs.now ≡ outputs.old }
{
    Lent {
        zeros,
        labels,
        sent,
        scratch,
        material,
        colours,
        outputs,
    }
}
