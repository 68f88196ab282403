// The noise on a shot: sigma times a sample, on its distance and on its bearing (document 01, "A job and its listing"); and the steps of a turn.
#![tactic(auto)]

ghost use Rattle.std.specs.Prelude.{◌≡◌, ◌^◌, ◌<◌, nat_abs};
ghost use Rattle.noisy_shot.specs.Rounding.{noise_size, noisy_distance, noisy_bearing};

// The steps of a turn.
pub const TURN_STEPS: u64 = 65536;

// The size of the noise.
fn noise_size(sigma: u32, sample: i16) -> u64
    ensures { (result ≡ noise_size sigma (nat_abs sample)) × (result < 2 ^ 37) }
{
    (sigma as u64 * signs::size_of(sample) as u64 + 1024) / 2048
}

pub fn noisy_distance(sigma: u32, distance: u32, sample: i16) -> u64
    ensures { result ≡ noisy_distance sigma distance sample }
{
    let noise = noise_size(sigma, sample);
    let exact = distance as u64;
    if 0 <= sample {
        return exact + noise;
    }
    exact.saturating_sub(noise)
}

pub fn noisy_bearing(sigma: u32, bearing: u32, sample: i16) -> u64
    ensures { result ≡ noisy_bearing sigma bearing sample }
{
    let noise = noise_size(sigma, sample);
    let exact = bearing as u64;
    if 0 <= sample {
        return (exact + noise) % TURN_STEPS;
    }
    (exact + (TURN_STEPS - noise % TURN_STEPS)) % TURN_STEPS
}
