// Converts the Survex text on standard input: the shot lines of its legs, or why it is refused and in which line.
#![tactic(auto)]

use std::io;

// The bytes of a text that the program holds.
const TEXT_ROOM: usize = 100000;

// The bytes of its shot lines: a leg of 10 bytes gives one of at most 21, and a longer one at most as many more as that.
const SHOTS_ROOM: usize = 250000;

// One byte more than it holds is read, so that a text that is too long is told and never cut.
fn main(rt: HostRuntime) -> io::Result<()> {
    let mut text = [0u8; TEXT_ROOM + 1];
    let mut out = [0u8; SHOTS_ROOM];
    let mut input = rt.stdin();
    let too_long = "the text has more than 100000 bytes";
    input::run(
        &rt,
        "legs",
        &mut input,
        &mut text,
        Some(too_long),
        &mut out,
        survex::print_legs,
    )
}
