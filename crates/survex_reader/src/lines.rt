// The lines of a Survex text that remain once comments, blanks and empty lines are passed over (document 02, Job 12).
ghost use Rattle.std.specs.Prelude.{◌+◌, ◌≡◌, length, drop};
ghost use Rattle.text.specs.Scan.{up_to};
ghost use Rattle.survex_reader.specs.Lines.{blank, not_blank, trim_end, kept_of, is_left, remaining_from};

use text::line::{line_end, scan};

// What is left of a line: whether the line has its line feed, and where it stands.
// A flag and no Option: the place is told with or without the line feed, and `kept_of` of specs/Lines.antt reads both.
#[derive(Clone, Copy)]
pub struct Kept {
    pub fed: bool,
    pub from: usize,
    pub to: usize,
}

impl Kept {
    // Whether the line remains: it lacks its line feed, or something is left of it.
    pub fn is_left(self) -> bool
        ensures { result ≡ is_left self }
    {
        !self.fed || self.from < self.to
    }
}

// The next line that remains, if there is one, by its place in the text; how many lines were passed over before it, or up to the end; and where the line
// after it begins.
// The lines passed over and the next place are told where none remains too: `count_after` and `place_after` of specs/LineTheorems.antt read both.
#[derive(Clone, Copy)]
pub struct Remaining {
    pub line: Option<Kept>,
    pub passed: usize,
    pub next: usize,
}

pub fn is_blank(b: u8) -> bool
    ensures { result ≡ blank b }
{
    b" \t".contains(&b)
}

// Where the blanks from a place on end. A text and a place, as `scan` of text takes them.
// Beside `scan` of text, which stops at a byte of a list: one function of both would take the test as a closure, and its clause be no plainer.
pub fn skip_blanks(text: &[u8], at: usize) -> usize
    ensures { result ≡ at + length (up_to not_blank (drop at text.now)) }
{
    let rest = &text[at.min(text.len())..];
    at + rest
        .iter()
        .position(|b| !is_blank(*b))
        .unwrap_or(rest.len())
}

// The length of a part without the blanks at its end.
fn trimmed_length(part: &[u8]) -> usize
    ensures { result ≡ length (trim_end part.now) }
{
    match part.iter().rposition(|b| !is_blank(*b)) {
        Some(last) => last + 1,
        None => 0,
    }
}

// What is left of a line, of one that is passed over too.
pub fn kept_of(line: &[u8]) -> Kept
    ensures { result ≡ kept_of line.now }
{
    let fed = scan(line, 0, b"\n") < line.len();
    let stop = scan(line, 0, b";\n");
    let from = skip_blanks(&line[0..stop], 0);
    let to = from + trimmed_length(&line[from..stop]);
    Kept { fed, from, to }
}

// The next line that remains, from a place of the text on. By place: where it stands is told, which an iterator over lines does not know.
pub fn line_at(text: &[u8], at: usize) -> Remaining
    ensures { result ≡ remaining_from text.now at }
{
    let mut place = at;
    let mut passed = 0;
    while place < text.len() {
        let end = line_end(text, place);
        let kept = kept_of(&text[place..end]);
        if kept.is_left() {
            return Remaining {
                line: Some(Kept {
                    fed: kept.fed,
                    from: place + kept.from,
                    to: place + kept.to,
                }),
                passed,
                next: end,
            };
        }
        passed += 1;
        place = end;
    }
    Remaining {
        line: None,
        passed,
        next: place,
    }
}

// A reader over the caller's Survex text: the text and a position in it (the form that document 02, Job 12, names).
#[derive(Clone, Copy)]
pub struct Reader<'a> {
    pub text: &'a [u8],
    pub at: usize,
}

// The line that a reader hands out, and the reader after it.
#[derive(Clone, Copy)]
pub struct Handed<'a> {
    pub line: Remaining,
    pub next: Reader<'a>,
}

pub fn reader_at<'a>(text: &'a [u8], at: usize) -> Reader<'a>
    ensures { (result.text ≡ text.entry) × (result.at ≡ at) }
{
    Reader { text, at }
}

// Hands out the next line that remains.
pub fn hand_out<'a>(r: Reader<'a>) -> Handed<'a>
    ensures { (result.line ≡ remaining_from r.entry.text.now r.entry.at) × (result.next.text ≡ r.entry.text) × (result.next.at ≡ (remaining_from r.entry.text.now r.entry.at).next) }
{
    let line = line_at(r.text, r.at);
    Handed {
        line,
        next: Reader {
            text: r.text,
            at: line.next,
        },
    }
}

// The line that a reader at a position hands out.
pub fn line_from(text: &[u8], at: usize) -> Remaining
    ensures { result ≡ remaining_from text.now at }
{
    let h = hand_out(reader_at(text, at));
    h.line
}
