// Whether a shot starts at the station where the one before it ended (document 02, Job 13).
ghost use Rattle.std.specs.Prelude.{◌≡◌};
ghost use Rattle.job_lines.specs.Links.{follows};

// Whether a shot starts at the station; with no station before it, any may be the first. The code of a shot that does not is 23 (`station_code`).
// An empty slice for no station, which no name is: `follows` of specs/Links.antt, in the clause, takes [] for none, and an `Option` would add a second
// value for it.
pub fn follows(station: &[u8], from: &[u8]) -> bool
    ensures { result ≡ follows station.now from.now }
{
    station.is_empty() || station == from
}
