// The sums of one play at 2^30, its pairs drawn by blocks.
ghost use Rattle.std.specs.Prelude.{◌≡◌, ◌+◌, ◌-◌, ◌*◌, ◌≤◌, min, nat_abs, ◌+ℤ◌, length};
ghost use Rattle.streams.specs.Streams.{after, pairs_code};
ghost use Rattle.job_reader.specs.Limits.{most_distance};
ghost use Rattle.sums.specs.Sums.{sine, cosine, product, total};
ghost use Rattle.play.specs.Play.{played_shots};
ghost use Rattle.play.specs.Private.{largest_sample, chunk_shots, noisy_of, noisy_shots, shots_of, setting_of, SmallSamples, Spare, Grown};

use crate::noisy_loop::NoisyLoop;
use angle::signed_of;
use job_reader::loops::LoopShot;
use noise::block;
use noisy_shot::{noisy_bearing, noisy_distance};
use streams::Generator;

// The shots of a block.
const CHUNK_SHOTS: usize = 32;

// The samples of a block.
const CHUNK_SAMPLES: usize = 2 * CHUNK_SHOTS;

// East and north.
#[derive(Clone, Copy)]
pub struct Sums {
    pub east: i64,
    pub north: i64,
}

// After a play: the record, and the sums.
#[derive(Clone, Copy)]
pub struct Progress {
    pub next: Generator,
    pub sums: Sums,
}

impl Sums {
    // A shot with its noise is added: first sample to distance, second to bearing.
    fn moved(self, noisy: NoisyLoop, shot: LoopShot, first: i16, second: i16) -> Sums
        requires { Spare self 1 × (shot.distance ≤ most_distance) × (nat_abs first ≤ largest_sample) × (nat_abs second ≤ largest_sample) }
        ensures { (result.east ≡ self.east +ℤ product sine (noisy_of noisy.entry.distance noisy.entry.bearing shot first second))
            × (result.north ≡ self.north +ℤ product cosine (noisy_of noisy.entry.distance noisy.entry.bearing shot first second)) }
    {
        let mm = noisy_distance(noisy.distance, shot.distance, first);
        let step = noisy_bearing(noisy.bearing, shot.bearing, second);
        let turned = signed_of(step as u32);
        Sums {
            east: self.east + mm as i64 * turned.sine,
            north: self.north + mm as i64 * turned.cosine,
        }
    }

    // The shots with their samples, two a shot, are added.
    fn summed(self, noisy: NoisyLoop, samples: &[i16]) -> Sums
        requires spare { Spare self (length noisy.shots.now) × SmallSamples samples.now }
        requires samples_len { length samples.now ≡ 2 * length noisy.shots.now }
        ensures { (result.east ≡ self.east +ℤ total sine (noisy_shots noisy.entry.distance noisy.entry.bearing noisy.entry.shots.now samples.now))
            × (result.north ≡ self.north +ℤ total cosine (noisy_shots noisy.entry.distance noisy.entry.bearing noisy.entry.shots.now samples.now))
            × Grown self result (length noisy.entry.shots.now) }
    {
        let mut s = self;
        let (pairs, _) = samples.as_chunks::<2>();
        for (&shot, &[first, second]) in noisy.shots.iter().zip(pairs) {
            s = s.moved(noisy, shot, first, second);
        }
        s
    }
}

impl NoisyLoop<'_> {
    // One play from a record, block by block.
    pub fn one_play(self, mut g: Generator) -> Progress
        requires { pairs_code g (length self.shots.now) ≡ 0 }
        ensures { (result.next ≡ after (length self.entry.shots.now) g)
            × (result.sums.east ≡ total sine (played_shots (setting_of g self.entry.distance self.entry.bearing) (shots_of self.entry.shots.now)))
            × (result.sums.north ≡ total cosine (played_shots (setting_of g self.entry.distance self.entry.bearing) (shots_of self.entry.shots.now)))
            × Spare result.sums 0 }
    {
        let mut samples = [0i16; CHUNK_SAMPLES];
        let mut sums = Sums { east: 0, north: 0 };
        for shots in self.shots.chunks(CHUNK_SHOTS) {
            let drawn = &mut samples[0..2 * shots.len()];
            g = block(g, drawn).next;
            let part = NoisyLoop {
                distance: self.distance,
                bearing: self.bearing,
                shots,
            };
            sums = sums.summed(part, drawn);
        }
        Progress { next: g, sums }
    }
}
