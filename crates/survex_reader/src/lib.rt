// A Survex text, read (document 02, Job 12): the lines that remain once comments and blanks are gone, and what a leg says.
#![tactic(auto)]

pub mod leg;
pub mod lines;
