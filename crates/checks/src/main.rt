// Runs what document 01 wants run by a program. Standard input is a job of one shot too many whose first four lines are the document's own job: it is
// listed to its second, last but one and last shot. Then the refusals 2 and 3, s0 of 1 and 2, and a block from each of some dozen seeds. The other
// implementation, tests/src/checks.rs, wrote what is stored.
#![tactic(auto)]

use job::limits::LISTING_ROOM;
use std::io;
use streams::Generator;

// A blank and a number.
fn number(rt: &impl Print, n: u32) -> io::Result<()> {
    print!(rt; " {n}")
}

// Samples, a blank before each, and the end of the line.
fn samples(rt: &impl Print, list: &[i16]) -> io::Result<()> {
    for &sample in list {
        print!(rt; " {sample}")?;
    }
    println!(rt; "")
}

// A job's refusal code and line, and its listing.
fn show_job(rt: &impl Print, text: &[u8]) -> io::Result<()> {
    let mut listing = [0u8; LISTING_ROOM];
    let answer = job::list(text, &mut listing);
    number(rt, answer.code)?;
    number(rt, answer.line)?;
    println!(rt; "")?;
    rt.write_all(&listing[..answer.length])
}

fn show_jobs(rt: &impl Print, text: &[u8]) -> io::Result<()> {
    if 9553 <= text.len() {
        show_job(rt, &text[0..91])?;
        show_job(rt, &text[0..9553])?;
        show_job(rt, text)?;
    }
    Ok(())
}

// The code and the samples of k and v.
fn show_samples(rt: &impl Print, k: u64, v: u32) -> io::Result<()> {
    let mut pair = [0i16; 2];
    let code = sample::sample(k, v, &mut pair);
    number(rt, code)?;
    samples(rt, &pair)
}

// The codes of seeding and of a block of six samples, and the samples. All registers but the first are the same.
fn show_block(rt: &impl Print, s0: u32, others: u32) -> io::Result<()> {
    let seeded = Generator::seed(s0, others, others, others, others, others);
    let mut block = [0i16; 6];
    let filled = noise::block(seeded.next, &mut block);
    number(rt, seeded.code)?;
    number(rt, filled.code)?;
    samples(rt, &block)
}

// Another register.
fn scattered(register: u32) -> u32 {
    register.wrapping_mul(1664525).wrapping_add(1013904223)
}

fn show_many(rt: &impl Print) -> io::Result<()> {
    for from in 0..36 {
        let s0 = scattered(from);
        show_block(rt, s0, scattered(s0))?;
    }
    Ok(())
}

fn main(rt: HostRuntime) -> io::Result<()> {
    let mut text = [0u8; 9572];
    input::read_all(&mut rt.stdin(), &mut text)?;
    show_jobs(&rt, &text)?;
    show_samples(&rt, 281474976710656, 0)?;
    show_samples(&rt, 0, 65536)?;
    show_block(&rt, 1, 16)?;
    show_block(&rt, 2, 16)?;
    show_many(&rt)
}
