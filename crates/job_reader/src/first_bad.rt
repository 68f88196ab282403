// The first bad line of a job: the walk alone.
ghost use Rattle.std.specs.Prelude.{◌≡◌};
ghost use Rattle.text.specs.Scan.{lines};
ghost use Rattle.job_reader.specs.Refusals.{first_bad, verdict_in};

use crate::refusals::BadLine;
use crate::walk::{first_progress, read_on};
use text::line::lines_of;

// Whether every line of a text is accepted; else the first that is not.
pub fn first_bad(text: &[u8]) -> Result<(), BadLine>
    ensures { verdict_in result ≡ first_bad 1 (lines text.now) }
{
    let mut read = first_progress();
    for line in lines_of(text) {
        read = read_on(line, read)?.next;
    }
    read.finish()?;
    Ok(())
}
