// Lent seed bytes, cleared on every way out.
ghost use Rattle.std.specs.Prelude.{◌≡◌, length, replicate};
ghost use Rattle.memory.specs.Seed.{blank};

// Holds lent seed bytes, and clears them when it goes.
pub struct SeedGuard<'a>(&'a mut [u8]);

impl Drop for SeedGuard<'_> {
    fn drop(self)
        ensures { self.exit.0.now ≡ replicate (length self.entry.0.now) 0 }
    {
        self.0.fill(0);
        let SeedGuard(_) = self;
    }
}

impl<'a> SeedGuard<'a> {
    pub fn new(seed: &'a mut [u8]) -> SeedGuard<'a>
        ensures value { result.0.now ≡ seed.old }
        ensures same { result.0.ghost_name ≡ seed.entry.ghost_name }
    {
        SeedGuard(seed)
    }

    pub fn bytes(&self) -> &[u8]
        ensures { result.now ≡ self.now.0.now }
    {
        &*self.0
    }
}

// Whether every byte is zero.
pub fn all_zero(bytes: &[u8]) -> bool
    ensures { result ≡ blank bytes.now }
{
    bytes.iter().all(|byte| *byte == 0)
}
