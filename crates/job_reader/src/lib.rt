// How a job is read (document 01, "A job and its listing" and the table of causes): its limits, why a line is refused, and the walk through its lines.
#![tactic(auto)]

pub mod first_bad;
pub mod limits;
pub mod loops;
pub mod refusals;
mod seeds;
mod shot;
pub mod walk;
