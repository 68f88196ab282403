// Names, digit strings, forms and lines, read in the caller's bytes; and bytes written into the caller's buffer.
#![tactic(auto)]

pub mod buffer;
pub mod digits;
pub mod field;
pub mod form;
pub mod limits;
pub mod line;
pub mod written;
