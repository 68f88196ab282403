// What is played: the shots of a loop, and the size of the noise that each play adds to them.
ghost use Rattle.std.specs.Prelude.{◌≤◌, length};
ghost use Rattle.job_reader.specs.Limits.{most_sigma, most_shots};
ghost use Rattle.play.specs.Near.{Near, Near-prop};

use job_reader::loops::LoopShot;

// The standard deviations, in mm and in steps, and the shots, all within a job's limits.
#[derive(Clone, Copy)]
pub struct NoisyLoop<'a> {
    pub distance: u32,
    pub bearing: u32,
    pub shots: &'a [LoopShot],
    ghost steady_distance: { distance ≤ most_sigma },
    ghost steady_bearing: { bearing ≤ most_sigma },
    ghost near: { Near shots.now } by { Near-prop shots.now },
    ghost few: { length shots.now ≤ most_shots },
}
