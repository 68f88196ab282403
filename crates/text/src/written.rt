// What was written into a room of N bytes.
ghost use Rattle.std.specs.Prelude.{◌≤◌, ◌≡◌, take};

// So many bytes, at the beginning of the room. No `Vec`, since nothing here has a heap; `within` keeps the length in the room, and those that make one say it
// again as `length_in_bounds`, which the proofs of `job` and `survex` cite.
#[derive(Clone, Copy)]
pub struct Written<const N: usize> {
    pub length: usize,
    pub bytes: [u8; N],
    ghost within: { length ≤ N },
}

impl<const N: usize> Written<N> {
    pub fn as_slice(&self) -> &[u8]
        ensures { result.now ≡ take self.now.length self.now.bytes }
    {
        let all = &self.bytes[..];
        &all[0..self.length]
    }
}
