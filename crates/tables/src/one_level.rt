// One level of step 2 of the table gate: what both parties' levels have in common.
ghost use Rattle.std.specs.Prelude.{◌≡◌, ◌+◌, ◌*◌, ◌/◌, ◌<◌, ◌≤◌, length};
ghost use Rattle.gates.specs.Tweak.{tweak as at_point};
ghost use Rattle.tables.specs.Level.{Holds};
ghost use Rattle.tables.specs.Ran.{Ran};
ghost use Rattle.labels.specs.Lists.{places};

use gates::tweak::tweak;
use hashes::hash::LabelHash;
use labels::kind::Label;

// A level of step 2: the gate's number, the level's, its key, and the number of its first row in the material.
#[derive(Drop)]
pub struct Level<L> {
    pub gate: u32,
    pub l: usize,
    pub key: L,
    pub row: usize,
    ghost least: { 1 ≤ l },
    ghost most: { l ≤ 8 },
}

// V[i] becomes V[i] ⊕ V[i + w], for the i below w, the half of V's length.
pub fn halve<L: Label>(v: &mut [L])
    ensures { Holds L.kind (length v.old / 2) (λ i. L.kind.xor (places L.kind v.old i) (places L.kind v.old (i + length v.old / 2))) v.new }
{
    let (front, back) = v.split_at_mut(v.len() / 2);
    // By the place in both halves: nothing is proved of what a zip of `iter_mut` wrote.
    for (i, x) in front.iter_mut().enumerate() {
        *x = x.xor(back[i]);
    }
}

// S(b,j) ⊕ M(b,j), from the sums S(b,·) and the key.
pub fn mask<L: Label, H: LabelHash<L>>(
    h: &mut H,
    gate: u32,
    l: usize,
    key: L,
    sums: &[L],
    j: usize,
) -> L
    requires small { j < 16 }
    requires low { l ≤ 8 }
    requires within { j < length sums.now }
    ensures answer { result ≡ L.kind.xor (places L.kind sums.now j) (H.means h.old key (at_point gate (512 + 16 * l + j))) }
    ensures ran { Ran (H.means h.old) (H.means h.new) (H.calls h.old) (H.calls h.new) 1 }
{
    let sum = sums[j];
    sum.xor(h.hash(key, tweak(gate, 512 + 16 * l + j)))
}
