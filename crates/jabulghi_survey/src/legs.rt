// The legs of a Survex text.
ghost use Rattle.std.specs.Prelude.{◌≡◌, length};
ghost use Rattle.job.specs.Job.{answer_of, buffer_after};
ghost use Rattle.survex.specs.Survex.{survex_of};

// The shot lines of a Survex text's legs, and the line and their length besides.
pub fn jabulghi_legs(text: &[u8], shots: &mut [u8], line: &mut usize, written: &mut usize) -> u32
    ensures code { result ≡ (answer_of (survex_of text.now) (length shots.old)).code }
    ensures line_after { line.new ≡ (answer_of (survex_of text.now) (length shots.old)).line }
    ensures written_after { written.new ≡ (answer_of (survex_of text.now) (length shots.old)).length }
    ensures shots_after { shots.new ≡ buffer_after (survex_of text.now) shots.old }
{
    let answer = survex::legs(text, shots);
    *line = answer.line;
    *written = answer.length;
    answer.code
}
