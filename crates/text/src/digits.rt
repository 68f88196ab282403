// The digits of a number, in a room of their own.
ghost use Rattle.std.specs.Prelude.{◌≤◌, ◌≡◌, drop};

// The digits of a number, at the end of twenty bytes. No `Vec`, since nothing here has a heap.
#[derive(Clone, Copy)]
pub struct Digits {
    pub from: usize,
    pub bytes: [u8; 20],
    ghost within: { from ≤ 20 },
}

impl Digits {
    pub fn digits(&self) -> &[u8]
        ensures { result.now ≡ drop self.now.from self.now.bytes }
    {
        &self.bytes[self.from..20]
    }
}
