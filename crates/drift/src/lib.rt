// Drift over the latest readings (document 02, Job 9): a window of N samples, with their sum and the sum of their squares kept up.
#![tactic(auto)]

mod fit;
mod sums;
mod turn;
pub mod window;
