// Bytes written into the caller's buffer, as many as fit.
ghost use Rattle.std.specs.Prelude.{◌≡◌, [], ◌∷◌, ◌++◌, length};
ghost use Rattle.text.specs.Fields.{decimal};
ghost use Rattle.text.specs.Buffer.{Puts, Writes};
ghost use Rattle.text.specs.Private.{SpelledIn};

pub use crate::digits::Digits;

// From a position on; the position after them is returned.
// For one write at a position that is kept elsewhere, as `marks` keeps its own; for several there is `Writer`.
pub fn put(out: &mut [u8], at: usize, bytes: &[u8]) -> usize
    ensures { Puts out.old at bytes.now result out.new }
{
    let start = at.min(out.len());
    let n = bytes.len().min(out.len() - start);
    out[start..start + n].copy_from_slice(&bytes[0..n]);
    at + n
}

// The caller's buffer, and how far it is written.
#[derive(Drop)]
pub struct Writer<'a> {
    pub out: &'a mut [u8],
    pub at: usize,
}

impl<'a> Writer<'a> {
    // At the beginning of a buffer.
    pub fn new(out: &'a mut [u8]) -> Writer<'a>
        ensures same_buffer { result.out.ghost_name ≡ out.entry.ghost_name }
        ensures unwritten { (result.out.now ≡ out.old) × (result.at ≡ 0) }
    {
        Writer { out, at: 0 }
    }

    pub fn put(&mut self, bytes: &[u8])
        ensures { Writes self.old bytes.now self.new }
    {
        self.at = put(self.out, self.at, bytes);
    }

    // A byte, if there is room for it. Stored: for `put` a slice of it would have to be made first.
    pub fn put_byte(&mut self, byte: u8)
        ensures { Writes self.old (byte ∷ []) self.new }
    {
        if self.at < self.out.len() {
            self.out[self.at] = byte;
            self.at += 1;
        }
    }

    // A field and the byte that ends it.
    pub fn put_field(&mut self, bytes: &[u8], end: u8)
        ensures { Writes self.old (bytes.now ++ (end ∷ [])) self.new }
    {
        self.put(bytes);
        self.put_byte(end);
    }

    // A number in decimal and the byte that ends it.
    // No `write!`: by its contract it may give an `Err`, and says nothing of the bytes then.
    pub fn put_decimal(&mut self, n: u64, end: u8)
        ensures { Writes self.old (decimal n ++ (end ∷ [])) self.new }
    {
        self.put_field(digits_of(n).digits(), end);
    }
}

// From the last digit to the first, until nothing is left: how many there are is not known before, so no iterator counts them, and the position is
// where they begin. No `itoa` of the kit: the archives are built of this repository's crates and std alone, and its table takes 200 bytes of flash.
fn digits_of(n: u64) -> Digits
    ensures { SpelledIn n result }
{
    let mut bytes = [0u8; 20];
    let mut from = 20;
    let mut rest = n;
    while 10 <= rest {
        from -= 1;
        bytes[from] = b'0' + (rest % 10) as u8;
        rest /= 10;
    }
    from -= 1;
    bytes[from] = b'0' + rest as u8;
    Digits { from, bytes }
}

// How many digits a number has.
pub fn decimal_length(n: u64) -> usize
    ensures { result ≡ length (decimal n) }
{
    digits_of(n).digits().len()
}
