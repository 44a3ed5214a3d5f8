// The AND half gate: the garbler's step and the evaluator's step.
ghost use Rattle.std.specs.Prelude.{◌≡◌};
ghost use Rattle.hashes.specs.Count.{counted};
ghost use Rattle.gates.specs.Half.{garbled, joined, Sound, Meets};

use crate::scale::times;
use crate::tweak::tweak;
use hashes::hash::LabelHash;
use labels::kind::Label;

// The garbler's step: the rows T and U, and the zero label of the new wire.
pub fn garble<L: Label, H: LabelHash<L>>(h: &mut H, gate: u32, offset: L, a: L, b: L) -> (L, L, L)
    ensures answer { result ≡ garbled L.kind (H.means h.old) gate offset a b }
    ensures kept { H.means h.new ≡ H.means h.old }
    ensures count { H.calls h.new ≡ counted (H.calls h.old) 4 }
{
    let p = a.colour();
    let r = b.colour();
    let fa = h.hash(a, tweak(gate, 0));
    let fa1 = h.hash(a.xor(offset), tweak(gate, 0));
    let fb = h.hash(b, tweak(gate, 1));
    let fb1 = h.hash(b.xor(offset), tweak(gate, 1));
    let t = fa.xor(fa1).xor(times(r, offset));
    let u = fb.xor(fb1).xor(a);
    // The evaluator's last formula, written again: as a function of six labels it would be no plainer.
    let left = fa.xor(times(p, t));
    let right = fb.xor(times(r, u.xor(a)));
    (t, u, left.xor(right))
}

// The evaluator's step: its label of the new wire, from the rows and its labels.
pub fn evaluate<L: Label, H: LabelHash<L>>(h: &mut H, gate: u32, t: L, u: L, a: L, b: L) -> L
    ensures answer { result ≡ joined L.kind (H.means h.old) gate t u a b }
    ensures kept { H.means h.new ≡ H.means h.old }
    ensures count { H.calls h.new ≡ counted (H.calls h.old) 2 }
    ensures meets { Meets L.kind (H.means h.old) gate t u a b result }
{
    let fa = h.hash(a, tweak(gate, 0));
    let fb = h.hash(b, tweak(gate, 1));
    let left = fa.xor(times(a.colour(), t));
    let right = fb.xor(times(b.colour(), u.xor(a)));
    left.xor(right)
}

// Whoever holds the labels of two bits gets the label of their AND: for every label kind and every F.
pub fn half_gate_stands<L: Label>()
    ensures { Sound L.kind }
{}
