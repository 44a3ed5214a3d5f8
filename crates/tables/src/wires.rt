// The new wires' share of V.
ghost use Rattle.std.specs.Prelude.{◌≡◌, ℕ, ◌+◌, ◌*◌, ◌/◌, ◌%◌, ◌^◌, ◌<◌, ◌≤◌, ◌==◌, length, slice_index, slice_set};
ghost use Rattle.labels.specs.Kind.{times as scaled};
ghost use Rattle.tables.specs.Level.{bucket, Sorted, Holds};
ghost use Rattle.labels.specs.Numbers.{bit};
ghost use Rattle.labels.specs.Lists.{places};
ghost use Rattle.tables.specs.Table.{sum, chosen};
ghost use Rattle.std.specs.Mem.{type_size};

use crate::number::has_bit;
use gates::scale::times;
use labels::kind::Label;
use std::mem::size_of_val;

// 64 labels fit in memory, since 128 are lent: a local array of labels asks for it.
pub fn local_labels_fit<L: Label>(labels: &[L])
    requires { 128 ≤ length labels.now }
    ensures { 64 * type_size L.row < 2 ^ 63 }
{
    let _bytes = size_of_val(labels);
}

// Adds a label to a bucket.
fn add_to<L: Label>(buckets: &mut [L], k: usize, x: L)
    requires { k < length buckets.old }
    ensures { buckets.new ≡ slice_set buckets.old k (L.kind.xor (places L.kind buckets.old k) x) }
{
    let old = buckets[k];
    buckets[k] = old.xor(x);
}

// Adds the label of number n to a bucket of each sixteen, by four bits of n.
fn add_four<L: Label>(buckets: &mut [L], n: u16, x: L)
    requires { length buckets.old ≡ 64 }
    ensures { (i : ℕ) → i < 64 → places L.kind buckets.new i ≡ L.kind.xor (places L.kind buckets.old i) (scaled L.kind (i % 16 == n / 2 ^ (4 * (i / 16)) % 16) x) }
{
    // By number: the bits of a sixteen begin at four times its number.
    for g in 0..4 {
        let k = usize::from((n >> (4 * g)) % 16);
        add_to(buckets, 16 * g + k, x);
    }
}

// Sorts the labels in v into four sixteens of buckets, by four bits of their numbers each: a bucket is the ⊕ of its labels.
fn sort<L: Label>(nums: &[u16], v: &[L], buckets: &mut [L])
    requires paired { length nums.now ≡ length v.now }
    requires long { length buckets.old ≡ 64 }
    requires empty { (i : ℕ) → i < 64 → places L.kind buckets.old i ≡ L.kind.zero }
    ensures { (i : ℕ) → i < 64 → places L.kind buckets.new i ≡ bucket L.kind (4 * (i / 16)) 16 (length v.now) (λ i. slice_index nums.now i) (places L.kind v.now) (i % 16) }
{
    for (n, x) in nums.iter().zip(v) {
        add_four(buckets, *n, *x);
    }
}

// The ⊕ of every second bucket from place a on. Each of these is added to the bucket before it, and the sums close up.
fn take_bit<L: Label>(buckets: &mut [L], a: usize, half: usize) -> L
    requires room { a + 2 * half ≤ length buckets.old }
    ensures answer { result ≡ sum L.kind half (λ k. places L.kind buckets.old (a + (2 * k + 1))) }
    ensures folded { (k : ℕ) → k < half → places L.kind buckets.new (a + k) ≡ L.kind.xor (places L.kind buckets.old (a + 2 * k)) (places L.kind buckets.old (a + (2 * k + 1))) }
    ensures others { (i : ℕ) → a + half ≤ i → places L.kind buckets.new i ≡ places L.kind buckets.old i }
{
    let mut all = L::zero();
    // By number: a sum goes to half the place of its buckets.
    for k in 0..half {
        let even = buckets[a + 2 * k];
        let odd = buckets[a + (2 * k + 1)];
        buckets[a + k] = even.xor(odd);
        all = all.xor(odd);
    }
    all
}

// The ⊕ of the labels whose number has bit j, from the buckets as wires 0 to j - 1 leave them.
fn take_wire<L: Label>(j: usize, buckets: &mut [L]) -> L
    requires small { j < 16 }
    requires long { length buckets.old ≡ 64 }
    ensures answer { (w : ℕ) (p : ℕ → ℕ) (V : ℕ → L) → Sorted L.kind j w p V buckets.old → result ≡ chosen L.kind j w p V }
    ensures left { (w : ℕ) (p : ℕ → ℕ) (V : ℕ → L) → Sorted L.kind j w p V buckets.old → Sorted L.kind (j + 1) w p V buckets.new }
{
    take_bit(buckets, 16 * (j / 4), 8 >> (j % 4))
}

// By buckets, which look at each label once: the new wires' labels as `choose` has them. On its own, so that `choose` stays small.
#[inline(never)]
fn choose_sorted<L: Label>(nums: &[u16], v: &[L], new: &mut [L])
    requires fits { 64 * type_size L.row < 2 ^ 63 }
    requires small { length new.old ≤ 16 }
    requires paired { length nums.now ≡ length v.now }
    ensures { Holds L.kind (length new.old) (λ j. chosen L.kind j (length v.now) (λ i. slice_index nums.now i) (places L.kind v.now)) new.new }
{
    let mut buckets = [L::zero(); 64];
    sort(nums, v, &mut buckets);
    for (j, label) in new.iter_mut().enumerate() {
        *label = take_wire(j, &mut buckets);
    }
}

// The ⊕ of the labels in v whose number has bit j.
fn gather<L: Label>(j: usize, nums: &[u16], v: &[L]) -> L
    requires small { j < 16 }
    requires paired { length nums.now ≡ length v.now }
    ensures { result ≡ chosen L.kind j (length v.now) (λ i. slice_index nums.now i) (places L.kind v.now) }
{
    let mut all = L::zero();
    for (n, x) in nums.iter().zip(v) {
        all = all.xor(times(has_bit(*n, j), *x));
    }
    all
}

// Wire by wire, which needs no buckets: the new wires' labels as `choose` has them.
fn choose_each<L: Label>(nums: &[u16], v: &[L], new: &mut [L])
    requires small { length new.old ≤ 16 }
    requires paired { length nums.now ≡ length v.now }
    ensures { Holds L.kind (length new.old) (λ j. chosen L.kind j (length v.now) (λ i. slice_index nums.now i) (places L.kind v.now)) new.new }
{
    for (j, label) in new.iter_mut().enumerate() {
        *label = gather(j, nums, v);
    }
}

// For each wire j the ⊕ of the labels in v whose number has bit j: in step 2 S(b,j), and in step 4, of V and the numbers f',
// the new wires but for the offset's share and the parts of step 2. Where wires or labels are few, buckets would take longer.
pub fn choose<L: Label>(nums: &[u16], v: &[L], new: &mut [L])
    requires fits { 64 * type_size L.row < 2 ^ 63 }
    requires small { length new.old ≤ 16 }
    requires paired { length nums.now ≡ length v.now }
    ensures { Holds L.kind (length new.old) (λ j. chosen L.kind j (length v.now) (λ i. slice_index nums.now i) (places L.kind v.now)) new.new }
{
    if new.len() <= 4 || v.len() <= 8 {
        choose_each(nums, v, new);
    } else {
        choose_sorted(nums, v, new);
    }
}

// The garbler's new wires but for the parts of step 2: the chosen labels, and the offset where s has the wire's bit.
pub fn start_wires<L: Label>(s: u16, offset: L, fs: &[u16], v: &[L], new: &mut [L])
    requires fits { 64 * type_size L.row < 2 ^ 63 }
    requires small { length new.old ≤ 16 }
    requires paired { length fs.now ≡ length v.now }
    ensures { Holds L.kind (length new.old) (λ j. L.kind.xor (scaled L.kind (bit j s) offset) (chosen L.kind j (length v.now) (λ i. slice_index fs.now i) (places L.kind v.now))) new.new }
{
    choose(fs, v, new);
    for (j, label) in new.iter_mut().enumerate() {
        *label = times(has_bit(s, j), offset).xor(*label);
    }
}
