// What a program says of a read or a write that failed.
use std::io::{Cursor, Write};
use std::{fmt, io};

// More bytes than the text of an error has.
const ROOM: usize = 512;

// Says on standard error what failed and why, in the system's words, without the number that std puts after them.
pub fn tell<R: Eprint>(rt: &R, what: impl fmt::Display + Drop, error: io::Error) -> io::Result<()> {
    let mut said = Cursor::new([0u8; ROOM]);
    write!(said, "{error}")?;
    let length = said.position() as usize;
    let bytes = said.into_inner();
    let text = std::str::from_utf8(&bytes[..length.min(ROOM)]).unwrap_or("");
    let why = text.split(" (os error ").next().unwrap_or(text);
    eprintln!(rt; "{what}: {why}")
}
