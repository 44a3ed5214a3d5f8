// Step 2 of the garbler, level by level: the rows, the new wires' parts, and the halvings of V.
ghost use Rattle.std.specs.Prelude.{◌≡◌, ◌+◌, ◌-◌, ◌*◌, ◌^◌, ◌<◌, ◌≤◌, ℕ, true, false, length, slice_index};
ghost use Rattle.tables.specs.Level.{bases, Holds, Numbered};
ghost use Rattle.material.specs.Size.{labels_of};
ghost use Rattle.tables.specs.Material.{row_bytes};
ghost use Rattle.tables.specs.Ran.{Ran};
ghost use Rattle.std.specs.Mem.{type_size};
ghost use Rattle.labels.specs.Lists.{places};
ghost use Rattle.tables.specs.Table.{level as level_of, sum, given as share_of, mask_row};

use crate::number::{base, level_after};
use crate::one_level::{Level, halve, mask};
use crate::rows::put_row;
use crate::wires::choose;
use hashes::hash::LabelHash;
use labels::kind::Label;

// The garbler's level: adds its parts to the new wires, and writes its rows of the material.
fn garble_level<L: Label, H: LabelHash<L>>(
    h: &mut H,
    level: Level<L>,
    offset: L,
    nums: &[u16],
    v: &[L],
    new: &mut [L],
    material: &mut [u8],
)
    requires fits { 64 * type_size L.row < 2 ^ 63 }
    requires small { length new.old ≤ 16 }
    requires labels { length v.now ≡ 2 ^ level.l }
    requires numbers { length nums.now ≡ 2 ^ level.l }
    requires room { (level.row + length new.old) * L.kind.width ≤ length material.old }
    ensures news { Holds L.kind (length new.old) (λ j. L.kind.xor (places L.kind new.old j) (level_of L.kind (H.means h.old) level.gate level.l (2 ^ (level.l - 1)) offset level.key (λ i. slice_index nums.now i) (places L.kind v.now) false j)) new.new }
    ensures row { (j : ℕ) → j < length new.old → row_bytes L.kind (level.row + j) material.new ≡ L.kind.bytes (L.kind.xor (level_of L.kind (H.means h.old) level.gate level.l (2 ^ (level.l - 1)) offset level.key (λ i. slice_index nums.now i) (places L.kind v.now) false j) (level_of L.kind (H.means h.old) level.gate level.l (2 ^ (level.l - 1)) offset level.key (λ i. slice_index nums.now i) (places L.kind v.now) true j)) }
    ensures before { (i : ℕ) → i < level.row → row_bytes L.kind i material.new ≡ row_bytes L.kind i material.old }
    ensures ran { Ran (H.means h.old) (H.means h.new) (H.calls h.old) (H.calls h.new) (2 * length new.old) }
{
    let w = 1 << (level.l - 1);
    let key0 = level.key;
    let key1 = key0.xor(offset);
    let mut front = [L::zero(); 16];
    let mut back = [L::zero(); 16];
    let zeros = &mut front[..new.len()];
    let ones = &mut back[..new.len()];
    choose(&nums[..w], &v[..w], zeros);
    choose(&nums[w..], &v[w..], ones);
    for (j, label) in new.iter_mut().enumerate() {
        let zero = mask(h, level.gate, level.l, key0, zeros, j);
        let one = mask(h, level.gate, level.l, key1, ones, j);
        put_row(material, level.row + j, zero.xor(one));
        *label = label.xor(zero);
    }
}

// Step 2 of the garbler, at all levels: adds its parts to the new wires, writes the rows after the one-hot rows, and halves V.
// The arguments stay apart, as in `gate::garble_labels`.
pub fn garble_levels<L: Label, H: LabelHash<L>>(
    h: &mut H,
    gate: u32,
    offset: L,
    zeros: &[L],
    nums: &[u16],
    v: &mut [L],
    new: &mut [L],
    material: &mut [u8],
)
    requires fits { 64 * type_size L.row < 2 ^ 63 }
    requires small { length new.old ≤ 16 }
    requires few { length zeros.now ≤ 8 }
    requires labels { 2 ^ length zeros.now ≤ length v.old }
    requires numbers { 2 * 2 ^ length zeros.now ≤ length nums.now }
    requires room { labels_of (length zeros.now) (length new.old) * L.kind.width ≤ length material.old }
    requires there { Numbered L.kind (H.means h.old) gate (length new.old) (length zeros.now) offset (bases L.kind offset zeros.now) nums.now }
    ensures news { Holds L.kind (length new.old) (λ j. L.kind.xor (places L.kind new.old j) (sum L.kind (length zeros.now) (λ d. share_of L.kind (H.means h.old) gate (length new.old) (length zeros.now) offset (bases L.kind offset zeros.now) (places L.kind v.old) d false j))) new.new }
    ensures rows { (d : ℕ) → d < length zeros.now → (j : ℕ) → j < length new.old → row_bytes L.kind (length zeros.now - 1 + (d * length new.old + j)) material.new ≡ L.kind.bytes (mask_row L.kind (H.means h.old) gate (length new.old) (length zeros.now) offset (bases L.kind offset zeros.now) (places L.kind v.old) d j) }
    ensures before { (i : ℕ) → i < length zeros.now - 1 → row_bytes L.kind i material.new ≡ row_bytes L.kind i material.old }
    ensures ran { Ran (H.means h.old) (H.means h.new) (H.calls h.old) (H.calls h.new) (2 * (length zeros.now * length new.old)) }
{
    let (n, m) = (zeros.len(), new.len());
    // By number: hashes and rows name a level by its number, from n down.
    for d in 0..n {
        let l = level_after(n, d);
        let key = base(offset, zeros[l - 1]);
        let level = Level {
            gate,
            l,
            key,
            row: n - 1 + d * m,
        };
        let w = 1 << l;
        let v = &mut v[..w];
        garble_level(h, level, offset, &nums[w..w + w], v, new, material);
        halve(v);
    }
}
