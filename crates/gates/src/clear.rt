// Labels that are cleared.
ghost use Rattle.std.specs.Prelude.{◌≡◌, length, replicate};

use labels::kind::Label;

// Makes each label the zero label.
pub fn clear<L: Label>(labels: &mut [L])
    ensures { labels.new ≡ replicate (length labels.old) L.kind.zero }
{
    // No `fill`: it asks that a clone cannot fail, which the trait `Label` does not say.
    for label in labels.iter_mut() {
        *label = L::zero();
    }
}
