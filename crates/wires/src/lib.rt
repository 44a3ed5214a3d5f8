// A store of wires over lent memory: made in order, each read only once made. It serves bits and labels of any kind.
#![tactic(auto)]

ghost use Rattle.std.specs.Prelude.{◌≡◌, ◌+◌, ◌<◌, ◌≤◌, length, slice_index_or};
ghost use Rattle.wires.specs.Wires.{Grown};

// A gate of several new wires is lent `values` from `made` on, and then moves `made`.
// That `made` stays within `values` is no ghost field: `new` would then refuse a store that it takes today.
#[derive(Drop)]
pub struct Wires<'a, T> {
    pub values: &'a mut [T],
    pub made: usize,
}

impl<'a, T: Copy> Wires<'a, T> {
    pub fn new(values: &'a mut [T], made: usize) -> Wires<'a, T>
        ensures values { result.values.now ≡ values.old }
        ensures made { result.made ≡ made }
        ensures same { result.values.ghost_name ≡ values.entry.ghost_name }
    {
        Wires { values, made }
    }

    // The value of a wire that is made.
    pub fn read(&self, w: u16) -> T
        requires { (w < self.now.made) × (self.now.made ≤ length self.now.values.now) }
        ensures { (d : T) → result ≡ slice_index_or self.now.values.now w d }
    {
        self.values[usize::from(w)]
    }

    // Makes the next wire.
    pub fn push(&mut self, x: T)
        requires { self.old.made < length self.old.values.now }
        ensures made { self.new.made ≡ self.old.made + 1 }
        ensures grown { Grown self.old.made 1 (λ _. x) self.old.values.now self.new.values.now }
        ensures same { self.new.values.ghost_name ≡ self.old.values.ghost_name }
    {
        self.values[self.made] = x;
        self.made += 1;
    }
}
