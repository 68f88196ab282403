// Many plays of a loop.
ghost use Rattle.std.specs.Prelude.{◌≡◌, length};
ghost use Rattle.play.specs.Play.{play_of, answer_of, misses_after};

// How far a loop misses in as many plays as there is room for, from the first that is given; and the line besides.
pub fn jabulghi_play(text: &[u8], first: u64, misses: &mut [[i64; 2]], line: &mut u32) -> u32
    ensures code { result ≡ (answer_of (play_of text.now first (length misses.old))).code }
    ensures line_after { line.new ≡ (answer_of (play_of text.now first (length misses.old))).line }
    ensures misses_after { misses.new ≡ misses_after (play_of text.now first (length misses.old)) first misses.old }
{
    let answer = play::play(text, first, misses);
    *line = answer.line;
    answer.code
}
