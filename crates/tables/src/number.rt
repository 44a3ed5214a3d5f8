// Numbers from the colours of labels, and labels of colour 0.
ghost use Rattle.std.specs.Prelude.{◌≡◌, ◌+◌, ◌*◌, ◌<◌, ◌≤◌, length};
ghost use Rattle.labels.specs.Numbers.{bit, digit};
ghost use Rattle.labels.specs.Lists.{places};
ghost use Rattle.tables.specs.Table.{based, colours as of_colours};

use gates::scale::times;
use labels::kind::Label;

// Bit j of a number.
pub fn has_bit(word: u16, j: usize) -> bool
    requires { j < 16 }
    ensures { result ≡ bit j word }
{
    (word >> j) % 2 == 1
}

// b × w
pub fn weight(b: bool, w: usize) -> usize
    ensures value { result ≡ digit b * w }
    ensures within { result ≤ w }
{
    usize::from(b) * w
}

// The level that d halvings leave, of n.
pub fn level_after(n: usize, d: usize) -> usize
    requires { d < n }
    ensures { result + d ≡ n }
{
    n - d
}

// The wire's label of colour 0, from its zero label.
pub fn base<L: Label>(offset: L, zero: L) -> L
    ensures { result ≡ based L.kind offset zero }
{
    zero.xor(times(zero.colour(), offset))
}

// The number whose bit k is the colour of label k.
pub fn colours<L: Label>(labels: &[L]) -> usize
    requires { length labels.now ≤ 8 }
    ensures { result ≡ of_colours L.kind (length labels.now) (places L.kind labels.now) }
{
    let mut number = 0;
    for (k, label) in labels.iter().enumerate() {
        number += weight(label.colour(), 1 << k);
    }
    number
}
