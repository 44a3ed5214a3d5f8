// Step 2 of the evaluator, level by level: the new wires' parts, and the halvings of V.
ghost use Rattle.std.specs.Prelude.{◌≡◌, ◌+◌, ◌-◌, ◌*◌, ◌/◌, ◌^◌, ◌<◌, ◌≤◌, length, slice_index};
ghost use Rattle.labels.specs.Kind.{times as scaled};
ghost use Rattle.tables.specs.Level.{Holds};
ghost use Rattle.material.specs.Size.{labels_of};
ghost use Rattle.tables.specs.Material.{row_at, mask_rows};
ghost use Rattle.tables.specs.Ran.{Ran};
ghost use Rattle.std.specs.Mem.{type_size};
ghost use Rattle.labels.specs.Lists.{places};
ghost use Rattle.tables.specs.Table.{masked, sum, taken};

use crate::number::{level_after, weight};
use crate::one_level::{Level, halve, mask};
use crate::random::pick;
use crate::rows::get_row;
use crate::wires::choose;
use gates::scale::times;
use hashes::hash::LabelHash;
use labels::kind::Label;

// The evaluator's part: S(b,j) ⊕ M(b,j) ⊕ b·row.
fn unmasked<L: Label>(b: bool, part: L, row: L) -> L
    ensures { result ≡ L.kind.xor part (scaled L.kind b row) }
{
    part.xor(times(b, row))
}

// The evaluator's level: adds its parts to the new wires, from its rows of the material.
fn evaluate_level<L: Label, H: LabelHash<L>>(
    h: &mut H,
    level: Level<L>,
    nums: &[u16],
    v: &[L],
    new: &mut [L],
    material: &[u8],
)
    requires fits { 64 * type_size L.row < 2 ^ 63 }
    requires small { length new.old ≤ 16 }
    requires labels { length v.now ≡ 2 ^ level.l }
    requires numbers { length nums.now ≡ 2 ^ (level.l - 1) }
    requires room { (level.row + length new.old) * L.kind.width ≤ length material.now }
    ensures news { Holds L.kind (length new.old) (λ j. L.kind.xor (places L.kind new.old j) (L.kind.xor (masked L.kind (H.means h.old) level.gate level.l (2 ^ (level.l - 1)) (λ i. slice_index nums.now i) level.key (L.kind.colour level.key) (places L.kind v.now) j) (scaled L.kind (L.kind.colour level.key) (row_at L.kind material.now (level.row + j))))) new.new }
    ensures ran { Ran (H.means h.old) (H.means h.new) (H.calls h.old) (H.calls h.new) (length new.old) }
{
    let b = level.key.colour();
    let w = 1 << (level.l - 1);
    let start = weight(b, w);
    let mut sums = [L::zero(); 16];
    let sums = &mut sums[..new.len()];
    choose(nums, &v[start..start + w], sums);
    for (j, label) in new.iter_mut().enumerate() {
        let part = mask(h, level.gate, level.l, level.key, sums, j);
        let row: L = get_row(material, level.row + j);
        *label = label.xor(unmasked(b, part, row));
    }
}

// The evaluator's level, and then the halving of V.
fn evaluate_then_halve<L: Label, H: LabelHash<L>>(
    h: &mut H,
    level: Level<L>,
    nums: &[u16],
    v: &mut [L],
    new: &mut [L],
    material: &[u8],
)
    requires fits { 64 * type_size L.row < 2 ^ 63 }
    requires small { length new.old ≤ 16 }
    requires labels { length v.old ≡ 2 ^ level.l }
    requires numbers { length nums.now ≡ 2 ^ (level.l - 1) }
    requires room { (level.row + length new.old) * L.kind.width ≤ length material.now }
    ensures news { Holds L.kind (length new.old) (λ j. L.kind.xor (places L.kind new.old j) (L.kind.xor (masked L.kind (H.means h.old) level.gate level.l (2 ^ (level.l - 1)) (λ i. slice_index nums.now i) level.key (L.kind.colour level.key) (places L.kind v.old) j) (scaled L.kind (L.kind.colour level.key) (row_at L.kind material.now (level.row + j))))) new.new }
    ensures halved { Holds L.kind (length v.old / 2) (λ i. L.kind.xor (places L.kind v.old i) (places L.kind v.old (i + length v.old / 2))) v.new }
    ensures ran { Ran (H.means h.old) (H.means h.new) (H.calls h.old) (H.calls h.new) (length new.old) }
{
    evaluate_level(h, level, nums, v, new, material);
    halve(v);
}

// Step 2 of the evaluator, at all levels: adds its parts to the new wires, from the rows after the one-hot rows, and halves V.
pub fn evaluate_levels<L: Label, H: LabelHash<L>>(
    h: &mut H,
    gate: u32,
    labels: &[L],
    material: &[u8],
    v: &mut [L],
    new: &mut [L],
)
    requires fits { 64 * type_size L.row < 2 ^ 63 }
    requires small { length new.old ≤ 16 }
    requires few { length labels.now ≤ 8 }
    requires places { 2 ^ length labels.now ≤ length v.old }
    requires room { labels_of (length labels.now) (length new.old) * L.kind.width ≤ length material.now }
    ensures news { Holds L.kind (length new.old) (λ j. L.kind.xor (places L.kind new.old j) (sum L.kind (length labels.now) (λ d. taken L.kind (H.means h.old) gate (length new.old) (length labels.now) (mask_rows L.kind (length labels.now) (length new.old) material.now) (places L.kind labels.now) (places L.kind v.old) d j))) new.new }
    ensures ran { Ran (H.means h.old) (H.means h.new) (H.calls h.old) (H.calls h.new) (2 ^ length labels.now - 1 + length labels.now * length new.old) }
{
    let mut numbers = [0u16; 128];
    let n = labels.len();
    let m = new.len();
    // By number: hashes and rows name a level by its number, from n down.
    for d in 0..n {
        let l = level_after(n, d);
        let key = labels[l - 1];
        let level = Level {
            gate,
            l,
            key,
            row: n - 1 + d * m,
        };
        let nums = &mut numbers[..1 << (l - 1)];
        pick(h, gate, m as u32, key, nums);
        let v = &mut v[..1 << l];
        evaluate_then_halve(h, level, nums, v, new, material);
    }
}
