// Scans of a text from a place on, up to a byte that stops them, and the lines of a text.
ghost use Rattle.std.specs.Prelude.{◌+◌, ◌≡◌, length, drop};
ghost use Rattle.std.specs.Iterator.{YieldsFirstRef, item_count};
ghost use Rattle.text.specs.Scan.{one_of, up_to, first_line, lines};

// Where the first of the stops stands; where there is none, the end of the text. `skip_blanks` of survex_reader stops by a test, and stands apart for that.
// A text and a place, here and below, and no slice from the place on: what is returned counts from the beginning of the text, as a `Place` does.
pub fn scan(text: &[u8], at: usize, stops: &[u8]) -> usize
    ensures { result ≡ at + length (up_to (one_of stops.now) (drop at text.now)) }
{
    let rest = &text[at.min(text.len())..];
    at + rest
        .iter()
        .position(|b| stops.contains(b))
        .unwrap_or(rest.len())
}

// Where the line that begins at a place ends: past its line feed, or at the end of the text.
pub fn line_end(text: &[u8], at: usize) -> usize
    ensures { result ≡ at + length (first_line (drop at text.now)) }
{
    let end = scan(text, at, b"\n");
    if end < text.len() { end + 1 } else { end }
}

// The lines of a text, each with its line feed; the last may lack it. It holds what is left of the text.
#[derive(Drop)]
pub struct Lines<'a> {
    pub rest: &'a [u8],
}

impl<'a> Iterator for Lines<'a> {
    type Item = &'a [u8];

    ghost next_gives = { YieldsFirstRef (λ s. lines s.rest.now) };

    ghost remaining = { item_count (λ s. lines s.rest.now) };

    fn next(&mut self) -> Option<&'a [u8]> {
        if self.rest.is_empty() {
            return None;
        }
        let (line, rest) = self.rest.split_at(line_end(self.rest, 0));
        self.rest = rest;
        Some(line)
    }
}

// The lines of a text.
pub fn lines_of<'a>(text: &'a [u8]) -> Lines<'a>
    ensures { result.rest ≡ text.entry }
{
    Lines { rest: text }
}
