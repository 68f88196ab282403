// What the programs have in common: standard input is read until it ends or a buffer is full, standard output is written, and what fails is said.
#![tactic(auto)]

mod failure;

ghost use Rattle.std.specs.Prelude.{◌≡◌, ◌≤◌, length, MatchResult};

pub use failure::tell;
use std::io;
use std::io::Read;

// A read that failed: its error, and how many bytes were read before it.
#[derive(Drop)]
pub struct Stopped {
    pub error: io::Error,
    pub length: usize,
}

impl From<Stopped> for io::Error {
    ghost from_gives = { λ stopped error. error ≡ stopped.error };

    fn from(stopped: Stopped) -> io::Error {
        stopped.error
    }
}

// Reads until the buffer is full, the input ends or a read fails, and returns how many bytes were read.
pub fn read_all<R: Read>(from: &mut R, buf: &mut [u8]) -> Result<usize, Stopped>
    ensures { MatchResult result (λ n. n ≤ length buf.new) (λ stopped. stopped.length ≤ length buf.new) }
{
    let mut done = 0;
    // No `read_exact`: input may end before the buffer is full, and then what was read counts.
    while done < buf.len() {
        match from.read(&mut buf[done..]) {
            Ok(0) => return Ok(done),
            Ok(n) => done += n,
            Err(error) => {
                return Err(Stopped {
                    error,
                    length: done,
                });
            }
        }
    }
    Ok(done)
}

// Runs a program on its input: `print` fills a buffer from the text and returns how many of its bytes are printed. A text that fills its buffer is too
// long for some programs, which say so in their words. What fails is said on standard error, after the program's name.
pub fn run<R, I, P>(
    rt: &R,
    name: &str,
    input: &mut I,
    text: &mut [u8],
    too_long: Option<&str>,
    out: &mut [u8],
    print: P,
) -> io::Result<()>
where
    R: Print + Eprint,
    I: Read,
    P: FnOnce(&[u8], &mut [u8]) -> usize,
    requires { P.IsAlwaysCallable print }
{
    let read = match read_all(input, text) {
        Ok(read) => read,
        Err(stopped) => {
            let what = format_args!("{name}: reading standard input");
            return tell(rt, what, stopped.error);
        }
    };
    if read == text.len() {
        if let Some(why) = too_long {
            return eprintln!(rt; "{name}: {why}");
        }
    }
    let printed = print(&text[..read], out);
    match rt.write_all(&out[..printed.min(out.len())]) {
        Ok(()) => Ok(()),
        Err(error) => tell(rt, format_args!("{name}: writing standard output"), error),
    }
}
