// The colours of the outputs' labels, and the bits that they decode to.
ghost use Rattle.std.specs.Prelude.{◌≡◌, ◌*◌, ◌/◌, ◌<◌, true, length, ◌==◌};
ghost use Rattle.labels.specs.Kind.{differs};
ghost use Rattle.labels.specs.Numbers.{digit};
ghost use Rattle.labels.specs.Words.{word_at};
ghost use Rattle.circuit.specs.Words.{all_below};
ghost use Rattle.labels.specs.Lists.{places};
ghost use Rattle.memory.specs.Outputs.{colours_of, decoded_of};

use circuit::words::word_at;
use labels::kind::Label;

// The label on a wire.
pub fn label_at<L: Label>(wires: &[L], w: usize) -> L
    requires { w < length wires.now }
    ensures { result ≡ places L.kind wires.now w }
{
    wires[w]
}

// The colour of the label on output o's wire.
fn output_colour<L: Label>(wires: &[L], list: &[u8], o: usize) -> bool
    requires there { o < length list.now / 2 }
    requires order { word_at list.now o < length wires.now }
    ensures { result ≡ L.kind.colour (places L.kind wires.now (word_at list.now o)) }
{
    label_at(wires, usize::from(word_at(list, o))).colour()
}

// Writes the colour of each output's label.
pub fn write_colours<L: Label>(wires: &[L], list: &[u8], colours: &mut [u8])
    requires long { length list.now ≡ 2 * length colours.old }
    requires order { all_below (word_at list.now) (length colours.old) (length wires.now) ≡ true }
    ensures { colours.new ≡ colours_of L.kind wires.now list.now (length colours.old) }
{
    for (o, colour) in colours.iter_mut().enumerate() {
        *colour = u8::from(output_colour(wires, list, o));
    }
}

// A colour ⊕ the byte that came for it.
fn decoded_bit(colour: bool, byte: u8) -> u8
    ensures { result ≡ digit (differs colour (byte == 1)) }
{
    u8::from(colour ^ (byte == 1))
}

// Writes each output's bit: its label's colour ⊕ the byte that came for it.
pub fn write_outputs<L: Label>(wires: &[L], list: &[u8], colours: &[u8], outputs: &mut [u8])
    requires long { length list.now ≡ 2 * length outputs.old }
    requires coloured { length colours.now ≡ length outputs.old }
    requires order { all_below (word_at list.now) (length outputs.old) (length wires.now) ≡ true }
    ensures { outputs.new ≡ decoded_of L.kind wires.now list.now colours.now (length outputs.old) }
{
    // By the output's number, of its wire and of its colour: nothing is proved of what a zip with `iter_mut` wrote.
    for (o, output) in outputs.iter_mut().enumerate() {
        *output = decoded_bit(output_colour(wires, list, o), colours[o]);
    }
}
