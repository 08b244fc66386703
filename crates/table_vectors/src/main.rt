// Runs the second model's cases of the weekday and hour table (tests/model) through the proved functions and tells the answers.
//
// A case on standard input is one byte for its function, two bytes of length and a text; numbers come last. The answer on standard output is a line:
// the function's number, and the words of the answer. tests/model/README.md has the layouts.

#![tactic(auto)]

mod given;
mod words;

use blocks::read_full;
use given::{
    LONGEST_GIVEN, take_cell, take_length, take_long, take_record, take_signed, take_table,
};
use hour_cell::{Cell, CountsAs, add_refused, add_weight, counts_as, is_sound, slot_of};
use hour_mean::mean_of;
use hour_table::{enter, fill};
use records::Record;
use refusal::Refusal;
use std::io;
use std::io::{Stdin, Stdout};
use words::{say_added, say_filled, say_mean, say_slot, say_truth};

// One record into one cell, as `enter` does it with the cell of its slot.
fn added(item: Record, cell: Cell) -> Result<Cell, Refusal> {
    if !is_sound(cell) {
        return Err(Refusal::SumBeyond);
    }
    match counts_as(item)? {
        CountsAs::Weight(tenths) => add_weight(tenths, cell),
        CountsAs::Met => add_refused(cell),
        CountsAs::Nothing => Ok(cell),
    }
}

// A record or a value stands ahead of its cell or table, as it is handed in.
fn tell_added(input: Stdin, out: Stdout) -> io::Result<()> {
    let item = take_record(input)?;
    say_added(added(item, take_cell(input)?), out)
}

fn tell_add_weight(input: Stdin, out: Stdout) -> io::Result<()> {
    let tenths = take_signed(input)?;
    say_added(add_weight(tenths, take_cell(input)?), out)
}

fn tell_enter(input: Stdin, out: Stdout) -> io::Result<()> {
    let item = take_record(input)?;
    say_filled(enter(item, take_table(input)?), out)
}

// The functions, each under its number.
fn tell(function: u8, text: &[u8], input: Stdin, out: Stdout) -> io::Result<()> {
    match function {
        1 => say_slot(slot_of(take_long(input)?), out),
        2 => say_truth(is_sound(take_cell(input)?), out),
        3 => tell_added(input, out),
        4 => tell_enter(input, out),
        5 => say_filled(fill(text, take_table(input)?), out),
        6 => say_mean(mean_of(take_cell(input)?), out),
        7 => tell_add_weight(input, out),
        _ => say_added(add_refused(take_cell(input)?), out),
    }
}

// The programs of the second model's cases repeat the few lines below: handed out by a library, each would need a contract over what an input gives, a
// row and two wrong programs, which are longer than the lines.
// Runs one case. False at the end of the input.
fn run_case(mut input: Stdin, out: Stdout) -> io::Result<bool> {
    let mut one = [0u8; 1];
    if read_full(&mut input, &mut one)? == 0 {
        return Ok(false);
    }
    let [function] = one;
    let length = take_length(input)?;
    let mut space = [0u8; LONGEST_GIVEN];
    let text = &mut space[..length];
    read_full(&mut input, text)?;
    print!(out; "{function}")?;
    tell(function, text, input, out)?;
    print!(out; "\n")?;
    Ok(true)
}

// A proved loop has to end, but nothing says that an input ends. So the turns are counted up to a number that no run uses up.
fn main(rt: HostRuntime) -> io::Result<()> {
    for _ in 0..u64::MAX {
        if !run_case(rt.stdin(), rt.stdout())? {
            break;
        }
    }
    Ok(())
}
