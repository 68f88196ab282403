// Prints how far the loop of the listing on standard input misses: east and north in whole millimetres, or why the listing is refused and in
// which line.
#![tactic(auto)]

use misclosure::printer::{OUTPUT_ROOM, print_misses};
use std::io;

// The bytes that are read: every accepted listing has fewer.
const MOST_BYTES: usize = 65536;

// Input that is longer is not cut: nothing is printed for it but why. One byte more is read to know.
fn main(rt: HostRuntime) -> io::Result<()> {
    let mut text = [0u8; MOST_BYTES + 1];
    let mut out = [0u8; OUTPUT_ROOM];
    let mut input = rt.stdin();
    let too_long = "standard input has more than 65536 bytes";
    input::run(
        &rt,
        "misses",
        &mut input,
        &mut text,
        Some(too_long),
        &mut out,
        print_misses,
    )
}
