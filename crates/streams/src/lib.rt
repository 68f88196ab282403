// The two Tausworthe streams of L'Ecuyer (1996): seeding, the two numbers of a pair and of many, a skip of many pairs, and requests.
// A generator record goes in by value and comes back as it then is, beside the call's refusal code, 0 where it is accepted.
#![tactic(auto)]

// One draw from a stream, and whether its registers have their minima.
mod draw;
// Why a call on a record is refused.
mod codes;
// A record from six numbers, and the two numbers of a pair.
mod pairs;
// A record many pairs on.
mod ahead;
// A request for pairs that is noted, given up or taken later.
mod requests;
// Both streams side by side, and the numbers of many pairs.
mod side_by_side;

pub use requests::{ask, check_block, check_take, give_up};
pub use side_by_side::draw_pairs;

#[derive(Clone, Copy)]
pub struct Stream {
    pub s0: u32,
    pub s1: u32,
    pub s2: u32,
}

// The two streams; how many pairs were drawn or skipped; whether a request is open (not 0), and for how many pairs.
// Whether one is open is a number and no `Option`: these are the words of the header's struct jabulghi_record, and a caller's record may hold any.
#[derive(Clone, Copy)]
pub struct Generator {
    pub a: Stream,
    pub b: Stream,
    pub count: u64,
    pub waiting: u32,
    pub asked: u32,
}

// The refusals of calls on a record, under the documents' numbers.
#[derive(Clone, Copy, PartialEq, Eq)]
pub enum Refusal {
    OddLength = 4,
    FirstStream = 11,
    SecondStream = 12,
    CountFull = 13,
    Open = 14,
    NoneOpen = 15,
    WrongRequest = 16,
}

// A refusal code and the record that a call leaves.
// With its code, and no Result: `seed_of`, `skip_of` and `ask_of` of specs/Streams.antt, by which clauses and theorems state the calls, are such records.
#[derive(Clone, Copy)]
pub struct RecordAnswer {
    pub code: u32,
    pub next: Generator,
}

// The two numbers of a pair, 0 where the call is refused.
// With its code, and no Result, as RecordAnswer: `uniforms_of` of specs/Streams.antt states the draw by it.
#[derive(Clone, Copy)]
pub struct Uniforms {
    pub code: u32,
    pub k: u64,
    pub v: u32,
    pub next: Generator,
}

// Both streams, apart.
#[derive(Clone, Copy)]
pub struct Both {
    pub a: Stream,
    pub b: Stream,
}

// Both streams side by side: each register of a is the upper half of a number, and that of b the lower. One step moves both (side_by_side.rt).
#[derive(Clone, Copy)]
pub struct Lanes {
    s0: u64,
    s1: u64,
    s2: u64,
}
