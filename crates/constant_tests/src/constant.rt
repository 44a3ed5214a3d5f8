// A hash that answers the same label to every call.
ghost use Rattle.constant_tests.specs.Constant.{constant_hash};

use hashes::function::LabelFunction;
use labels::long::Long;

#[derive(Clone, Copy)]
pub struct ConstantFunction;

impl LabelFunction<Long> for ConstantFunction {
    ghost means = { constant_hash };

    fn answer(_label: Long, _tweak: u64) -> Long {
        Long { low: 6, high: 9 }
    }
}
