// The reader of a form: bytes that a line has as they stand, and # for each field.
ghost use Rattle.std.specs.Prelude.{◌+◌, ◌≡◌, length, drop};
ghost use Rattle.text.specs.Scan.{field};
ghost use Rattle.text.specs.Forms.{found_in, read_few, found_of};

use crate::field::Place;
use crate::line::scan;

// How far a form fits a line: where the rest of the line begins, how many fields were found, and their places.
#[derive(Clone, Copy)]
pub struct Found<const N: usize> {
    pub at: usize,
    pub count: usize,
    pub places: [Place; N],
}

// Where the field that begins at a place ends. One scan for all the fields of all forms.
#[inline(never)]
fn field_end(line: &[u8], at: usize) -> usize
    ensures { result ≡ at + length (field (drop at line.now)) }
{
    scan(line, at, b"\n ()")
}

// The places of a line's fields, where it is of the form: # takes the next field, any other byte is the line's next. Else how far the line was
// read. A form of more than N fields has no line. Inlined, so that the bytes of a form that is a literal are not loaded for each line.
#[inline(always)]
pub fn read_form<const N: usize>(form: &[u8], line: &[u8]) -> Result<Found<N>, Found<N>>
    ensures fields { read_few N form.now line.now ≡ found_in form.now line.now result }
    ensures exact { result ≡ found_of N form.now line.now }
{
    let mut places = [Place { from: 0, to: 0 }; N];
    // Counted, and no iterator over the line or the places: a # takes as much of the line as its field has, and the next of the places.
    let mut count = 0;
    let mut at = 0;
    for f in form {
        if *f == b'#' {
            if N <= count {
                return Err(Found { at, count, places });
            }
            let end = field_end(line, at);
            places[count] = Place { from: at, to: end };
            count += 1;
            at = end;
            continue;
        }
        if line.len() <= at {
            return Err(Found { at, count, places });
        }
        if line[at] != *f {
            return Err(Found {
                at: at + 1,
                count,
                places,
            });
        }
        at += 1;
    }
    if at < line.len() {
        return Err(Found { at, count, places });
    }
    Ok(Found { at, count, places })
}
