// What the open copy of a circuit is.
ghost use Rattle.laws.specs.Opened.{CopiesOpen};

// The open copy of a circuit that passes is a circuit that passes, the same but for its rows.
pub fn copies_are_open()
    ensures { CopiesOpen }
{}
