// Step 1 of the table gate: the one-hot labels V.
ghost use Rattle.std.specs.Prelude.{◌≡◌, ℕ, suc, ◌+◌, ◌-◌, ◌*◌, ◌^◌, ◌<◌, ◌≤◌, length, slice_set};
ghost use Rattle.tables.specs.Level.{bases, between, Grew, Holds};
ghost use Rattle.tables.specs.Material.{row_bytes, one_hot_rows};
ghost use Rattle.tables.specs.Ran.{Ran};
ghost use Rattle.labels.specs.Lists.{places};
ghost use Rattle.tables.specs.Table.{sum, hashed, grown, filled, hot, seen, hot_row};

use crate::number::{base, weight};
use crate::rows::{get_row, put_row};
use gates::tweak::tweak;
use hashes::hash::LabelHash;
use labels::kind::Label;

// The places from a to b - 1 of one level, in place. Answers the ⊕ of their c(i).
fn hash_part<L: Label, H: LabelHash<L>>(
    h: &mut H,
    gate: u32,
    v: &mut [L],
    w: usize,
    a: usize,
    b: usize,
) -> L
    requires room { w + w ≤ length v.old }
    requires few { w ≤ 128 }
    requires ordered { a ≤ b }
    requires within { b ≤ w }
    ensures answer { result ≡ between L.kind a b (hashed L.kind (H.means h.old) gate w (places L.kind v.old)) }
    ensures grew { Grew L.kind w a b (places L.kind v.old) (hashed L.kind (H.means h.old) gate w (places L.kind v.old)) v.new }
    ensures ran { Ran (H.means h.old) (H.means h.new) (H.calls h.old) (H.calls h.new) (b - a) }
{
    let mut all = L::zero();
    // By number: place i is written beside place w + i, and hashed by its number.
    for i in a..b {
        let x = v[i];
        let c = h.hash(x, tweak(gate, w + i));
        v[w + i] = c;
        v[i] = c.xor(x);
        all = all.xor(c);
    }
    all
}

// The garbler's level, from w places to 2 w. Answers the ⊕ of all c(i).
fn grow<L: Label, H: LabelHash<L>>(h: &mut H, gate: u32, v: &mut [L], w: usize) -> L
    requires room { w + w ≤ length v.old }
    requires few { w ≤ 128 }
    ensures answer { result ≡ sum L.kind w (hashed L.kind (H.means h.old) gate w (places L.kind v.old)) }
    ensures front { Holds L.kind (w + w) (grown L.kind w (places L.kind v.old) (hashed L.kind (H.means h.old) gate w (places L.kind v.old))) v.new }
    ensures ran { Ran (H.means h.old) (H.means h.new) (H.calls h.old) (H.calls h.new) w }
{
    hash_part(h, gate, v, w, 0, w)
}

// Fills the place x that the evaluator lacks, of w places: c there, and the label that V[x] becomes.
fn fill_place<L: Label>(v: &mut [L], w: usize, x: usize, c: L, lower: L)
    requires room { w + w ≤ length v.old }
    requires within { x < w }
    ensures { v.new ≡ slice_set (slice_set v.old (w + x) c) x lower }
{
    v[w + x] = c;
    v[x] = lower;
}

// The evaluator's level, which lacks c(x): there it is whole ⊕ all other c.
fn grow_around<L: Label, H: LabelHash<L>>(
    h: &mut H,
    gate: u32,
    v: &mut [L],
    w: usize,
    x: usize,
    whole: L,
)
    requires room { w + w ≤ length v.old }
    requires few { w ≤ 128 }
    requires within { x < w }
    ensures front { Holds L.kind (w + w) (grown L.kind w (places L.kind v.old) (filled L.kind w x whole (hashed L.kind (H.means h.old) gate w (places L.kind v.old)))) v.new }
    ensures ran { Ran (H.means h.old) (H.means h.new) (H.calls h.old) (H.calls h.new) (w - 1) }
{
    let first = hash_part(h, gate, v, w, 0, x);
    let second = hash_part(h, gate, v, w, x + 1, w);
    let c = whole.xor(first.xor(second));
    let old = v[x];
    fill_place(v, w, x, c, c.xor(old));
}

// Step 1 of the garbler: V, and the material's rows of the wires from 1 on.
pub fn garble_one_hot<L: Label, H: LabelHash<L>>(
    h: &mut H,
    gate: u32,
    offset: L,
    zeros: &[L],
    v: &mut [L],
    material: &mut [u8],
)
    requires some { 1 ≤ length zeros.now }
    requires few { length zeros.now ≤ 8 }
    requires places { 2 ^ length zeros.now ≤ length v.old }
    requires room { (length zeros.now - 1) * L.kind.width ≤ length material.old }
    ensures front { Holds L.kind (2 ^ length zeros.now) (hot L.kind (H.means h.old) gate offset (bases L.kind offset zeros.now) (length zeros.now)) v.new }
    ensures rows { (k : ℕ) → k < length zeros.now - 1 → row_bytes L.kind k material.new ≡ L.kind.bytes (hot_row L.kind (H.means h.old) gate offset (bases L.kind offset zeros.now) (suc k)) }
    ensures ran { Ran (H.means h.old) (H.means h.new) (H.calls h.old) (H.calls h.new) (2 ^ length zeros.now - 2) }
{
    let first = base(offset, zeros[0]);
    v[0] = first.xor(offset);
    v[1] = first;
    for (k, zero) in zeros[1..].iter().enumerate() {
        let all = grow(h, gate, v, 1 << (k + 1));
        put_row(material, k, base(offset, *zero).xor(all));
    }
}

// Step 1 of the evaluator: V, from its labels and the material's rows of the wires from 1 on.
pub fn evaluate_one_hot<L: Label, H: LabelHash<L>>(
    h: &mut H,
    gate: u32,
    labels: &[L],
    material: &[u8],
    v: &mut [L],
)
    requires some { 1 ≤ length labels.now }
    requires few { length labels.now ≤ 8 }
    requires places { 2 ^ length labels.now ≤ length v.old }
    requires room { (length labels.now - 1) * L.kind.width ≤ length material.now }
    ensures front { Holds L.kind (2 ^ length labels.now) (seen L.kind (H.means h.old) gate (one_hot_rows L.kind material.now) (places L.kind labels.now) (length labels.now)) v.new }
    ensures ran { Ran (H.means h.old) (H.means h.new) (H.calls h.old) (H.calls h.new) (2 ^ length labels.now - 1 - length labels.now) }
{
    let first = labels[0];
    v[0] = first;
    v[1] = first;
    let mut x = weight(first.colour(), 1);
    for (k, label) in labels[1..].iter().enumerate() {
        let w = 1 << (k + 1);
        let row: L = get_row(material, k);
        grow_around(h, gate, v, w, x, row.xor(*label));
        x += weight(label.colour(), w);
    }
}
