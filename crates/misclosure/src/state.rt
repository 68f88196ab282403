// A listing half way and at its end.
ghost use Rattle.std.specs.Prelude.{◌-◌, ◌+◌, ◌≤◌};
ghost use Rattle.sums.specs.Sums.{most_shots};
ghost use Rattle.misclosure.specs.Misclosure.{last_line};
ghost use Rattle.misclosure.specs.Sizes.{SumsOf};

use crate::Ends;

// The number of the next line, the last station, and the sums so far, no larger than the shots of the lines before can make them.
// An empty slice for no station, which no name is: `refusal` and `outcome` of specs/Misclosure.antt take [] for none.
#[derive(Clone, Copy)]
pub struct State<'a> {
    pub line: u32,
    pub station: &'a [u8],
    pub east: Ends,
    pub north: Ends,
    ghost after_header: { 2 ≤ line },
    ghost few: { line ≤ last_line + 1 },
    ghost east_size: { SumsOf (line - 2) east },
    ghost north_size: { SumsOf (line - 2) north },
}

// The sums of an accepted listing at 2^30.
#[derive(Clone, Copy)]
pub struct Totals {
    pub east: Ends,
    pub north: Ends,
    ghost east_size: { SumsOf most_shots east },
    ghost north_size: { SumsOf most_shots north },
}
