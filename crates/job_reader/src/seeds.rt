// The record that the seeds of a job's line 1 give.
ghost use Rattle.std.specs.Prelude.{◌≡◌, ◌≤◌, ◌<◌, MatchResult};
ghost use Rattle.job_reader.specs.Limits.{most_seed};
ghost use Rattle.job_reader.specs.declared.refusals.Cause.TheVariants.{OutOfRange};
ghost use Rattle.job_reader.specs.Private.{Gives, ThreeWithin};

use crate::refusals::Cause;
use job_lines::Seeds;
use streams::{Generator, Refusal, Stream};

// A seed is a register of 32 bits.
fn register(n: u64) -> Result<u32, Cause>
    ensures { MatchResult result (λ r. (r ≡ n) × (n ≤ most_seed)) (λ e. (e ≡ OutOfRange) × (most_seed < n)) }
{
    u32::try_from(n).map_err(|_e| Cause::OutOfRange)
}

// The three of a stream.
fn registers(s: (u64, u64, u64)) -> Result<Stream, Cause>
    ensures { ThreeWithin s.0 s.1 s.2 result }
{
    Ok(Stream {
        s0: register(s.0)?,
        s1: register(s.1)?,
        s2: register(s.2)?,
    })
}

// Seeding, where all are within their range.
pub fn seeded(x: Seeds) -> Result<Generator, Cause>
    ensures { Gives x result }
{
    let a = registers(x.a)?;
    let b = registers(x.b)?;
    let generator = Generator {
        a,
        b,
        count: 0,
        waiting: 0,
        asked: 0,
    };
    let Err(refusal) = generator.check_streams() else {
        return Ok(generator);
    };
    match refusal {
        Refusal::FirstStream => Err(Cause::FirstStream),
        _ => Err(Cause::SecondStream),
    }
}
