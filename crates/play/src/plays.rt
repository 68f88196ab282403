// Plays, one after another.
ghost use Rattle.std.specs.Prelude.{◌≡◌, ◌+◌, ◌*◌, length};
ghost use Rattle.streams.specs.Streams.{pairs_code};
ghost use Rattle.play.specs.Play.{misses_from};
ghost use Rattle.play.specs.Private.{shots_of, setting_of};

use crate::noisy_loop::NoisyLoop;
use misclosure::millimetres;
use streams::Generator;

impl NoisyLoop<'_> {
    // As many plays as there are misses, from a record on.
    fn each_play(self, mut g: Generator, misses: &mut [[i64; 2]])
        requires { pairs_code g (length misses.old * length self.shots.now) ≡ 0 }
        ensures { misses.new ≡ misses_from 0 (length misses.old) (setting_of g self.entry.distance self.entry.bearing) (shots_of self.entry.shots.now) }
    {
        for miss in misses {
            let p = self.one_play(g);
            g = p.next;
            let east = millimetres(p.sums.east);
            let north = millimetres(p.sums.north);
            *miss = [east, north];
        }
    }

    // The plays from the first that is given on: its record is that many times the shots pairs on.
    pub fn plays(self, g: Generator, first: u64, misses: &mut [[i64; 2]])
        requires { pairs_code g ((first + length misses.old) * length self.shots.now) ≡ 0 }
        ensures { misses.new ≡ misses_from first (length misses.old) (setting_of g self.entry.distance self.entry.bearing) (shots_of self.entry.shots.now) }
    {
        let n = self.shots.len() as u64;
        let skipped = g.skip(first * n);
        self.each_play(skipped.next, misses)
    }
}
