// Lists the job on standard input: its listing, or why it is refused and in which line.
#![tactic(auto)]

use job::limits::LISTING_ROOM;
use job::printer::print_job;
use job_reader::limits::MOST_BYTES;
use std::io;

// A text that is too long is refused whatever follows, so one byte more than the longest job is read.
fn main(rt: HostRuntime) -> io::Result<()> {
    let mut out = [0u8; LISTING_ROOM];
    let mut text = [0u8; MOST_BYTES + 1];
    let mut input = rt.stdin();
    input::run(
        &rt, "listing", &mut input, &mut text, None, &mut out, print_job,
    )
}
