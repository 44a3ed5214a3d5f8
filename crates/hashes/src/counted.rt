// A function F as a hash: it counts its calls.
ghost use Rattle.std.specs.Prelude.{◌≡◌, ◌^◌, ◌<◌};

use crate::function::LabelFunction;
use crate::hash::LabelHash;
use labels::kind::Label;
use std::marker::PhantomData;

#[derive(Drop)]
pub struct Counted<F> {
    count: u64,
    function: PhantomData<F>,
    ghost fits: { count < 2 ^ 64 },
}

impl<F> Counted<F> {
    // The hash with its count of calls so far.
    pub fn starting_at(count: u64) -> Counted<F>
        ensures { result.count ≡ count }
    {
        Counted {
            count,
            function: PhantomData,
        }
    }
}

impl<L: Label, F: LabelFunction<L>> LabelHash<L> for Counted<F> {
    ghost means = { λ _. F.means };

    ghost calls = { λ h. h.count };

    ghost fits = { λ h. h.fits };

    fn hash(&mut self, label: L, tweak: u64) -> L {
        self.count = self.count.saturating_add(1);
        F::answer(label, tweak)
    }

    fn count(&self) -> u64 {
        self.count
    }
}
