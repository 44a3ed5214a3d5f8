// The numbers of the random function r, and the masked table f'.
ghost use Rattle.std.specs.Prelude.{◌≡◌, ℕ, ◌+◌, ◌-◌, ◌*◌, ◌%◌, ◌^◌, ◌<◌, ◌≤◌, length, bit_xor, slice_index, EachIndex};
ghost use Rattle.tables.specs.Level.{bases, Numbered};
ghost use Rattle.labels.specs.Words.{word_at};
ghost use Rattle.tables.specs.Mixed.{mixed};
ghost use Rattle.tables.specs.Ran.{Ran};
ghost use Rattle.tables.specs.Table.{picked};

use crate::number::base;
use crate::rows::table_row;
use gates::tweak::tweak;
use hashes::hash::LabelHash;
use labels::kind::Label;

// h(b,i) for each i, at the level of as many numbers, under the key K(b).
pub fn pick<L: Label, H: LabelHash<L>>(h: &mut H, gate: u32, m: u32, key: L, nums: &mut [u16])
    requires small { m ≤ 16 }
    requires few { length nums.old ≤ 128 }
    ensures there { EachIndex nums.new (λ i. slice_index nums.new i ≡ picked L.kind (H.means h.old) gate m (length nums.old) key i) }
    ensures ran { Ran (H.means h.old) (H.means h.new) (H.calls h.old) (H.calls h.new) (length nums.old) }
{
    let w = nums.len();
    for (i, num) in nums.iter_mut().enumerate() {
        *num = h.hash(key, tweak(gate, 256 + w + i)).low_bits(m);
    }
}

// The garbler's numbers h(b,i) of all levels.
pub fn pick_all<L: Label, H: LabelHash<L>>(
    h: &mut H,
    gate: u32,
    m: u32,
    offset: L,
    zeros: &[L],
    nums: &mut [u16],
)
    requires small { m ≤ 16 }
    requires few { length zeros.now ≤ 8 }
    requires room { 2 * 2 ^ length zeros.now ≤ length nums.old }
    ensures there { Numbered L.kind (H.means h.old) gate m (length zeros.now) offset (bases L.kind offset zeros.now) nums.new }
    ensures ran { Ran (H.means h.old) (H.means h.new) (H.calls h.old) (H.calls h.new) (2 * 2 ^ length zeros.now - 2) }
{
    for (p, zero) in zeros.iter().enumerate() {
        let key0 = base(offset, *zero);
        let key1 = key0.xor(offset);
        let w = 1 << p;
        pick(h, gate, m, key0, &mut nums[2 * w..3 * w]);
        pick(h, gate, m, key1, &mut nums[3 * w..4 * w]);
    }
}

// One level more, of 2 w numbers: each of the first w numbers in fs is ⊕ed with both of the level's for it.
fn add_level(nums: &[u16], w: usize, fs: &mut [u16])
    requires few { w ≤ 128 }
    requires numbers { 4 * w ≤ length nums.now }
    requires room { 2 * w ≤ length fs.old }
    ensures lower { (i : ℕ) → i < w → slice_index fs.new i ≡ bit_xor (slice_index fs.old i) (slice_index nums.now (2 * w + i)) }
    ensures upper { (i : ℕ) → i < w → slice_index fs.new (w + i) ≡ bit_xor (slice_index fs.old i) (slice_index nums.now (3 * w + i)) }
{
    // By number: place i is written beside place w + i.
    for i in 0..w {
        let r = fs[i];
        fs[i] = r ^ nums[2 * w + i];
        fs[w + i] = r ^ nums[3 * w + i];
    }
}

// r(i) for each i: s ⊕ the numbers of i at all n levels.
fn mix_levels(s: u16, nums: &[u16], n: usize, fs: &mut [u16])
    requires few { n ≤ 8 }
    requires numbers { 2 * 2 ^ n ≤ length nums.now }
    requires places { length fs.old ≡ 2 ^ n }
    ensures { (i : ℕ) → i < 2 ^ n → slice_index fs.new i ≡ bit_xor s (mixed n (λ d. slice_index nums.now (2 ^ (n - d) + i % 2 ^ (n - d)))) }
{
    fs[0] = s;
    // By number: a level's place among the numbers is its power of two.
    for l in 0..n {
        add_level(nums, 1 << l, fs);
    }
}

// f'(i) for each i.
pub fn mask_table(rows: &[u8], alpha: usize, s: u16, nums: &[u16], n: usize, fs: &mut [u16])
    requires few { n ≤ 8 }
    requires within { alpha < 2 ^ n }
    requires numbers { 2 * 2 ^ n ≤ length nums.now }
    requires words { 2 * 2 ^ n ≤ length rows.now }
    requires places { length fs.old ≡ 2 ^ n }
    ensures { EachIndex fs.new (λ i. slice_index fs.new i ≡ bit_xor (word_at rows.now (bit_xor i alpha)) (bit_xor s (mixed n (λ d. slice_index nums.now (2 ^ (n - d) + i % 2 ^ (n - d)))))) }
{
    mix_levels(s, nums, n, fs);
    for (i, f) in fs.iter_mut().enumerate() {
        *f = table_row(rows, i ^ alpha) ^ *f;
    }
}
