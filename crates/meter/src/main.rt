// bench/run measures with this program what the proved layers cost. The program takes standard input through one of them in blocks. At the
// end it tells counts and a sum. The same work in C tells the same counts and the same sum.
//
// The argument names the work: check, byte, block (also without an argument), message, record.

#![tactic(auto)]

mod bodies;
mod hearing;
mod logs;
mod tally;

use blocks::read_full;
use bodies::read_bodies;
use check_byte::feed_all;
use logs::write_records;
use std::env::FillError;
use std::io;
use std::io::Read;
use std::rt::Env;
use tally::{BLOCK, Counts, Tally};

#[derive(Clone, Copy, Debug, PartialEq, Eq)]
enum Work {
    Check,
    Byte,
    Block,
    Message,
    Record,
}

// The work that a word names by its first letters, which differ. The rest of the word is not looked at: a `match` of whole words would refuse words that
// are taken today.
fn work_of(first: u8, second: u8) -> Option<Work> {
    match [first, second] {
        [b'c', _] => Some(Work::Check),
        [b'm', _] => Some(Work::Message),
        [b'r', _] => Some(Work::Record),
        [b'b', b'y'] => Some(Work::Byte),
        [b'b', b'l'] => Some(Work::Block),
        _ => None,
    }
}

// The register is handed on in the sum.
fn check(counts: &mut Counts, block: &[u8]) {
    let register = (counts.sum & 0xff) as u8;
    counts.sum = feed_all(register, block) as u64;
}

// One block through the work. The page is the room that records are written into; it is as long as a block.
fn measure(work: Work, tally: &mut Tally, block: &[u8], page: &mut [u8]) {
    match work {
        Work::Check => check(&mut tally.counts, block),
        Work::Byte => tally.take_bytes(block),
        Work::Block => tally.listen(block),
        Work::Message => read_bodies(&mut tally.counts, block),
        Work::Record => write_records(&mut tally.counts, block, page),
    }
}

// Takes an input to its end, as much at a time as a block holds. A proved loop has to end, but nothing says that an input ends. So the
// turns are counted up to a number that no run uses up.
// The meters repeat this loop: a library function over what is done with a block would need a `requires` on it, and no public function has one.
fn measure_all(
    work: Work,
    input: &mut impl Read,
    block: &mut [u8],
    page: &mut [u8],
) -> io::Result<Counts> {
    let mut tally = Tally::new();
    for _ in 0..u64::MAX {
        let count = read_full(input, block)?;
        if count == 0 {
            break;
        }
        measure(work, &mut tally, &block[..count], page);
    }
    Ok(tally.counts)
}

fn run(work: Work, input: &mut impl Read) -> io::Result<Counts> {
    let mut block = [0u8; BLOCK];
    let mut page = [0u8; BLOCK];
    measure_all(work, input, &mut block, &mut page)
}

// The work that the argument names.
fn work_named(rt: &impl Env) -> Option<Work> {
    let mut word = [0u8; 4096];
    match rt.arg(1, &mut word) {
        Ok(_) => work_of(word[0], word[1]),
        Err(FillError::NotPresent) => Some(Work::Block),
        Err(FillError::TooLong) => None,
    }
}

fn main(rt: HostRuntime) -> io::Result<()> {
    let Some(work) = work_named(&rt) else {
        return eprintln!(rt; "meter: the work is one of check, byte, block, message, record");
    };
    let Counts { good, refused, sum } = run(work, &mut rt.stdin())?;
    println!(rt; "good {good} refused {refused} sum {sum}")
}
