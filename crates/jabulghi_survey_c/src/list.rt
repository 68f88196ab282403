// The listing of a job of shots.
ghost use Rattle.std.specs.Prelude.{◌≡◌, length};
ghost use Rattle.job.specs.Job.{job_of, answer_of, buffer_after};

// The listing of a job, and the line and the listing's length besides.
#[unsafe(no_mangle)]
pub extern "C" fn jabulghi_list(
    text: &[u8],
    listing: &mut [u8],
    line: &mut u32,
    written: &mut usize,
) -> u32
    ensures code { result ≡ (answer_of (job_of text.now) (length listing.old)).code }
    ensures line_after { line.new ≡ (answer_of (job_of text.now) (length listing.old)).line }
    ensures written_after { written.new ≡ (answer_of (job_of text.now) (length listing.old)).length }
    ensures listing_after { listing.new ≡ buffer_after (job_of text.now) listing.old }
{
    jabulghi_survey::list::jabulghi_list(text, listing, line, written)
}
