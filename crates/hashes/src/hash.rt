// The interface of a hash over one label kind: a function F of a label and a 64-bit tweak, and a count of its calls.
ghost use Rattle.std.specs.Prelude.{◌≡◌, ℕ, ◌^◌, ◌<◌};
ghost use Rattle.hashes.specs.Count.{counted};

use labels::kind::Label;

pub trait LabelHash<L: Label> {
    // F, the function that a call answers.
    ghost means: { Self → L → ℕ → L };

    // The count of calls, held at its largest value once there.
    ghost calls: { Self → ℕ };

    fn hash(&mut self, label: L, tweak: u64) -> L
        ensures answer { result ≡ means self.old label tweak }
        ensures kept { means self.new ≡ means self.old }
        ensures count { calls self.new ≡ counted (calls self.old) 1 };

    fn count(&self) -> u64
        ensures { result ≡ calls self.now };

    // The count has 64 bits.
    ghost fits: { (h : Self) → calls h < 2 ^ 64 };
}
