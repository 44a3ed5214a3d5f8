// The paper hash, for work with a pencil.
ghost use Rattle.hashes.specs.PaperHash.{paper_hash};

use crate::counted::Counted;
use crate::function::LabelFunction;
use labels::paper::Paper;

#[derive(Clone, Copy)]
pub struct PaperFunction;

pub type PaperHash = Counted<PaperFunction>;

impl LabelFunction<Paper> for PaperFunction {
    ghost means = { paper_hash };

    fn answer(label: Paper, tweak: u64) -> Paper {
        let q = label.word.wrapping_add((tweak % 65536) as u16);
        let a = q.wrapping_mul(5).wrapping_add(1);
        Paper {
            word: a.swap_bytes(),
        }
    }
}
