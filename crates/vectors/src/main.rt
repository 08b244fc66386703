// Runs the cases of the second model (tests/model) through the proved functions and tells the answers.
//
// A case on standard input is one byte for its function, two bytes of length and a text, and then numbers. A writer's case has two bytes of
// length and the lent room between text and numbers. The answer on standard output is a line: the function's number, and the words of the
// answer. tests/model/README.md has the layouts. Each function here says its own.

#![tactic(auto)]

mod frames;
mod given;
mod lines;
mod listings;
mod logs;
mod messages;
mod walks;
mod weights;
mod words;

use blocks::read_full;
use given::{LONGEST_GIVEN, take_length};
use refusal::Refusal;
use std::io;
use std::io::{Stdin, Stdout};
use words::say_written;

// From this number on the functions write into lent room.
const FIRST_WRITER: u8 = 27;

// The functions, each under its number.
fn tell(function: u8, text: &[u8], input: Stdin, out: Stdout) -> io::Result<()> {
    match function {
        1 => frames::feed(input, out),
        2 => frames::feed_all(text, out),
        3 => frames::check_of(text, out),
        4 => frames::legal(input, out),
        5 => frames::judge(text, out),
        6 => frames::open(text, out),
        7 => frames::room_needed(text, input, out),
        8 => lines::take(text, input, out),
        9 => lines::feed(text, input, out),
        10 => lines::listen(text, input, out),
        11 => lines::hear(text, input, out),
        12 => weights::read(input, out),
        13 => weights::in_range(input, out),
        14 => weights::write(input, out),
        15 => weights::value(input, out),
        16 => weights::difference(input, out),
        17 => weights::kilograms(input, out),
        18 => weights::inputs_on(input, out),
        19 => messages::read(text, input, out),
        20 => logs::read(text, out),
        21 => logs::heard(text, input, out),
        22 => logs::step(text, input, out),
        23 => logs::noted(input, out),
        24 => walks::step(text, input, out),
        25 => walks::walk(text, input, out),
        _ => weights::mode(input, out),
    }
}

// Those that write into lent room.
fn write(
    function: u8,
    text: &[u8],
    room: &mut [u8],
    input: Stdin,
) -> io::Result<Result<usize, Refusal>> {
    match function {
        27 => frames::write(text, room, input),
        28 => messages::write(text, room, input),
        29 => logs::write(room, input),
        30 => listings::write_line(text, room, input),
        _ => listings::write_total(room, input),
    }
}

// A write into a room as it is lent, and what it leaves there.
fn tell_written(function: u8, text: &[u8], mut input: Stdin, out: Stdout) -> io::Result<()> {
    let length = take_length(input)?;
    let mut space = [0u8; LONGEST_GIVEN];
    let room = &mut space[..length];
    read_full(&mut input, room)?;
    let written = write(function, text, room, input)?;
    say_written(written, room, out)
}

fn answer(function: u8, text: &[u8], input: Stdin, out: Stdout) -> io::Result<()> {
    if function < FIRST_WRITER {
        tell(function, text, input, out)
    } else {
        tell_written(function, text, input, out)
    }
}

// The programs of the second model's cases repeat the few lines below: handed out by a library, each would need a contract over what an input gives, a
// row and two wrong programs, which are longer than the lines.
// Runs one case. False at the end of the input.
fn run_case(mut input: Stdin, out: Stdout) -> io::Result<bool> {
    let mut one = [0u8; 1];
    if read_full(&mut input, &mut one)? == 0 {
        return Ok(false);
    }
    let [function] = one;
    let length = take_length(input)?;
    let mut space = [0u8; LONGEST_GIVEN];
    let text = &mut space[..length];
    read_full(&mut input, text)?;
    print!(out; "{function}")?;
    answer(function, text, input, out)?;
    print!(out; "\n")?;
    Ok(true)
}

// A proved loop has to end, but nothing says that an input ends. So the turns are counted up to a number that no run uses up.
fn main(rt: HostRuntime) -> io::Result<()> {
    for _ in 0..u64::MAX {
        if !run_case(rt.stdin(), rt.stdout())? {
            break;
        }
    }
    Ok(())
}
