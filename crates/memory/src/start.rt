// A side's wires when it is opened or joined.
ghost use Rattle.std.specs.Prelude.{◌≡◌, ◌≤◌, length};
ghost use Rattle.hashes.specs.Count.{counted};
ghost use Rattle.hashes.specs.Draws.{input_zero};
ghost use Rattle.wires.specs.Wires.{Filled};
ghost use Rattle.memory.specs.Start.{opened_wire};

use gates::clear::clear;
use hashes::draws::draw;
use hashes::hash::LabelHash;
use labels::kind::Label;
use wires::Wires;

// Makes each input's wire: its zero label. By number: input i has draw 1 + i.
fn draw_inputs<L: Label, H: LabelHash<L>>(h: &mut H, seed: L, wires: &mut Wires<L>, inputs: u16)
    requires unmade { wires.old.made ≡ 0 }
    requires room { inputs ≤ length wires.old.values.now }
    ensures filled { Filled inputs (input_zero (H.means h.old) seed) wires.old.values.now wires.new.values.now }
    ensures same { wires.new.values.ghost_name ≡ wires.old.values.ghost_name }
    ensures kept { H.means h.new ≡ H.means h.old }
    ensures count { H.calls h.new ≡ counted (H.calls h.old) inputs }
{
    for i in 0..inputs {
        let zero = draw(h, seed, 1 + u32::from(i));
        wires.push(zero);
    }
}

// The garbler's wires: the inputs' zero labels, and zero for each wire not yet made.
pub fn open_wires<L: Label, H: LabelHash<L>>(
    h: &mut H,
    seed: L,
    wires: &mut [L],
    inputs: u16,
    total: u16,
)
    requires within { inputs ≤ total }
    requires room { total ≤ length wires.old }
    ensures filled { Filled total (opened_wire L.kind (H.means h.old) seed inputs) wires.old wires.new }
    ensures kept { H.means h.new ≡ H.means h.old }
    ensures count { H.calls h.new ≡ counted (H.calls h.old) inputs }
{
    clear(&mut wires[usize::from(inputs)..usize::from(total)]);
    let mut store = Wires::new(wires, 0);
    draw_inputs(h, seed, &mut store, inputs);
}

// The evaluator's wires: zero for each.
pub fn join_wires<L: Label>(wires: &mut [L], total: u16)
    requires { total ≤ length wires.old }
    ensures { Filled total (λ _. L.kind.zero) wires.old wires.new }
{
    clear(&mut wires[..usize::from(total)]);
}
