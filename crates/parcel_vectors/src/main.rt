// Runs the second model's cases of the parcel scales (tests/model) through the proved functions and tells the answers. `vectors` runs all other
// cases; its check is as long as a check may be.
//
// A case on standard input is one byte for its function, two bytes of length and a text. A write has two bytes of length and the lent room behind
// it. Numbers come last. The answer on standard output is a line: the function's number, and the words of the answer. tests/model/README.md has
// the layouts.

#![tactic(auto)]

mod words;

ghost use Rattle.std.specs.Prelude.{◌≤◌, IfOk};

use blocks::read_full;
use parcel_check::check_of;
use parcel_scale::{Parcel, ParcelWeight};
use std::io;
use std::io::{Stdin, Stdout};
use words::{say, say_parcel_read, say_value, say_written};

// The longest text, and the longest room.
const LONGEST_GIVEN: usize = 4096;

// Two bytes of a length.
fn take_length(mut input: Stdin) -> io::Result<usize>
    ensures { IfOk result (λ n. n ≤ 4096) }
{
    let mut two = [0u8; 2];
    read_full(&mut input, &mut two)?;
    Ok(usize::from(u16::from_le_bytes(two)).min(LONGEST_GIVEN))
}

// Four bytes of the count, division, stable.
fn take_weight(mut input: Stdin) -> io::Result<ParcelWeight> {
    let mut six = [0u8; 6];
    read_full(&mut input, &mut six)?;
    let [c0, c1, c2, c3, division, stable] = six;
    Ok(ParcelWeight {
        count: i32::from_le_bytes([c0, c1, c2, c3]),
        division,
        stable,
    })
}

// One byte for the message, four of a number, division, stable. A message takes what it has.
fn take_parcel(mut input: Stdin) -> io::Result<Parcel> {
    let mut seven = [0u8; 7];
    read_full(&mut input, &mut seven)?;
    let [message, n0, n1, n2, n3, division, stable] = seven;
    let number = u32::from_le_bytes([n0, n1, n2, n3]);
    Ok(match message {
        0 => Parcel::GetWeight,
        1 => Parcel::SetTare(number.cast_signed()),
        2 => Parcel::GetDeviceId,
        3 => Parcel::AckWeight(ParcelWeight {
            count: number.cast_signed(),
            division,
            stable,
        }),
        4 => Parcel::AckCommand,
        5 => Parcel::AckDeviceId(number),
        _ => Parcel::Nack,
    })
}

// A write into a room as it is lent, and what it leaves there.
fn tell_written(mut input: Stdin, out: Stdout) -> io::Result<()> {
    let length = take_length(input)?;
    let mut space = [0u8; LONGEST_GIVEN];
    let room = &mut space[..length];
    read_full(&mut input, room)?;
    let written = parcel_scale::write(take_parcel(input)?, room);
    say_written(written, room, out)
}

// The functions, each under its number.
fn tell(function: u8, text: &[u8], input: Stdin, out: Stdout) -> io::Result<()> {
    match function {
        1 => say(check_of(text) as u64, out),
        2 => say_parcel_read(parcel_scale::read(text), out),
        3 => say_value(parcel_scale::value_of(take_weight(input)?), out),
        _ => tell_written(input, out),
    }
}

// The programs of the second model's cases repeat the few lines below: handed out by a library, each would need a contract over what an input gives, a
// row and two wrong programs, which are longer than the lines.
// Runs one case. False at the end of the input.
fn run_case(mut input: Stdin, out: Stdout) -> io::Result<bool> {
    let mut one = [0u8; 1];
    if read_full(&mut input, &mut one)? == 0 {
        return Ok(false);
    }
    let [function] = one;
    let length = take_length(input)?;
    let mut space = [0u8; LONGEST_GIVEN];
    let text = &mut space[..length];
    read_full(&mut input, text)?;
    print!(out; "{function}")?;
    tell(function, text, input, out)?;
    print!(out; "\n")?;
    Ok(true)
}

// A proved loop has to end, but nothing says that an input ends. So the turns are counted up to a number that no run uses up.
fn main(rt: HostRuntime) -> io::Result<()> {
    for _ in 0..u64::MAX {
        if !run_case(rt.stdin(), rt.stdout())? {
            break;
        }
    }
    Ok(())
}
