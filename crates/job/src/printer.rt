// What the program listing prints.
ghost use Rattle.std.specs.Prelude.{◌≤◌, length};
ghost use Rattle.text.specs.Buffer.{Puts};
ghost use Rattle.job.specs.Job.{job_of, output_of};

use crate::listed;
use listing_rows::write::put_refused;

// Writes what the listing program prints, the listing or why the job is refused, and returns its length.
pub fn print_job(text: &[u8], out: &mut [u8]) -> usize
    ensures puts { Puts out.old 0 (output_of (job_of text.now) (length out.old)) result out.new }
    ensures within { result ≤ length out.new }
{
    match listed(text, out) {
        Ok(length) => length,
        Err(refusal) => put_refused(out, refusal.code(), refusal.line() as u64),
    }
}
