// The SHA hash: SHA-256 of the label and the tweak, cut to a label.
ghost use Rattle.hashes.specs.ShaHash.{sha_hash};

use crate::counted::Counted;
use crate::function::LabelFunction;
use labels::kind::Label;
use labels::long::Long;
use sha256::sha256;

#[derive(Clone, Copy)]
pub struct ShaFunction;

pub type ShaHash = Counted<ShaFunction>;

impl LabelFunction<Long> for ShaFunction {
    ghost means = { sha_hash };

    fn answer(label: Long, tweak: u64) -> Long {
        let mut bytes = [0; 24];
        let (front, back) = bytes.split_at_mut(16);
        label.write(front);
        back.copy_from_slice(&tweak.to_le_bytes());
        let digest = sha256(&bytes);
        Long::read(&digest[..16])
    }
}
