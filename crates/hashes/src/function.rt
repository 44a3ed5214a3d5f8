// The interface of a function F of a label and a 64-bit tweak.
ghost use Rattle.std.specs.Prelude.{◌≡◌, ℕ};

use labels::kind::Label;

pub trait LabelFunction<L: Label> {
    // F.
    ghost means: { L → ℕ → L };

    fn answer(label: L, tweak: u64) -> L
        ensures { result ≡ means label tweak };
}
