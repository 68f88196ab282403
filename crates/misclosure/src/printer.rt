// What the program misses prints: east and north in whole millimetres, the lowest and the highest of each where distances lie between two readings, or
// why the listing is refused.
ghost use Rattle.std.specs.Prelude.{◌≤◌, [], ◌∷◌, ◌++◌, length, true, false};
ghost use Rattle.text.specs.Buffer.{Puts, Writes};
ghost use Rattle.misclosure.specs.Misclosure.{listing_of, miss_of, intervals_of};
ghost use Rattle.misclosure.specs.Output.{signed_decimal, sum_rows, ends_row, interval_rows, miss_output, intervals_output, output_of};

use crate::{Ends, intervals, is_between, misclosure};
use listing_rows::write::put_refused;
use text::buffer::Writer;

// The room that suffices for any answer.
pub const OUTPUT_ROOM: usize = 96;

// A signed number in decimal and the byte that ends it. No `write!`, for the reason at `put_decimal` of crate text.
fn put_signed(writer: &mut Writer<'_>, n: i64, end: u8)
    ensures { Writes writer.old (signed_decimal n ++ (end ∷ [])) writer.new }
{
    if n < 0 {
        writer.put_byte(b'-');
    }
    writer.put_decimal(n.unsigned_abs(), end);
}

fn put_sums(out: &mut [u8], east: i64, north: i64) -> usize
    ensures { Puts out.old 0 (sum_rows east north) result out.new }
{
    let mut writer = Writer::new(out);
    writer.put_field(b"EAST", b' ');
    put_signed(&mut writer, east, b'\n');
    writer.put_field(b"NORTH", b' ');
    put_signed(&mut writer, north, b'\n');
    writer.at
}

// A row of a name and two numbers.
fn put_ends(writer: &mut Writer<'_>, name: &[u8], e: Ends)
    ensures { Writes writer.old (ends_row name.now e) writer.new }
{
    writer.put_field(name, b' ');
    put_signed(writer, e.low, b' ');
    put_signed(writer, e.high, b'\n');
}

// Apart from `put_sums`, as `print_intervals` is from `print_miss`: one function of both would ask at each row whether it has one number or two.
fn put_intervals(out: &mut [u8], east: Ends, north: Ends) -> usize
    ensures { Puts out.old 0 (interval_rows east north) result out.new }
{
    let mut writer = Writer::new(out);
    put_ends(&mut writer, b"EAST", east);
    put_ends(&mut writer, b"NORTH", north);
    writer.at
}

fn print_miss(text: &[u8], out: &mut [u8]) -> usize
    ensures { Puts out.old 0 (miss_output (miss_of (listing_of false text.now))) result out.new }
{
    let miss = misclosure(text);
    // By its code, as `miss_output` of specs/Output.antt reads the answer.
    if miss.code == 0 {
        return put_sums(out, miss.easting, miss.northing);
    }
    put_refused(out, miss.code, miss.line as u64)
}

fn print_intervals(text: &[u8], out: &mut [u8]) -> usize
    ensures { Puts out.old 0 (intervals_output (intervals_of (listing_of true text.now))) result out.new }
{
    let sums = intervals(text);
    // By its code, as `intervals_output` of specs/Output.antt reads the answer.
    if sums.code == 0 {
        let easting = sums.easting;
        let northing = sums.northing;
        return put_intervals(out, easting, northing);
    }
    put_refused(out, sums.code, sums.line as u64)
}

// Writes what the program prints for a listing of either kind, and returns its length.
pub fn print_misses(text: &[u8], out: &mut [u8]) -> usize
    ensures puts { Puts out.old 0 (output_of text.now) result out.new }
    ensures upper_bound { result ≤ length out.new }
{
    if is_between(text) {
        return print_intervals(text, out);
    }
    print_miss(text, out)
}
