// Runs the second model's cases of bad bits (tests/model) through the proved functions and tells the answers. `vectors` runs most other cases; its
// check is as long as a check may be.
//
// A case on standard input is one byte for its function, two bytes of length and a text. The answer on standard output is a line: the function's number,
// and the words of the answer, numbers in decimal. tests/model/README.md has the layouts.

#![tactic(auto)]

ghost use Rattle.std.specs.Prelude.{◌≤◌, IfOk};

use bad_bit::{BitPlace, find};
use blocks::read_full;
use line::{BodyPlace, Event, Reader, WirePlace};
use refusal::Refusal;
use room::front;
use std::io;
use std::io::{Stdin, Stdout};

// The longest text.
const LONGEST_GIVEN: usize = 4096;

fn say(number: u64, out: Stdout) -> io::Result<()> {
    print!(out; " {number}")
}

// A bit that is told has a word more than none.
fn say_finding(finding: Result<Option<BitPlace>, Refusal>, out: Stdout) -> io::Result<()> {
    match finding {
        Err(why) => say(u8::from(why) as u64, out),
        Ok(None) => print!(out; " 0 0"),
        Ok(Some(BitPlace(place))) => print!(out; " 0 1 {place}"),
    }
}

// A body with a wrong check, which stands at the front of the lent bytes, is handed on behind its two places.
fn hand_on(wire: WirePlace, kept: BodyPlace, body: &[u8], out: Stdout) -> io::Result<()> {
    say(wire.0, out)?;
    say(kept.0 as u64, out)?;
    say_finding(find(front(body, kept.0)), out)
}

// A capture, heard from its start to its end. At the end it tells how many bodies were handed on.
fn hear(capture: &[u8], out: Stdout) -> io::Result<()> {
    let Reader {
        mut place,
        mut body,
    } = Reader::new();
    let mut failed = 0u64;
    let mut rest = capture;
    // Each turn goes on by an event and not by a byte, so there is a measure and no `for`.
    while !rest.is_empty() {
        let went = place.listen(rest, &mut body);
        place = went.place;
        rest = &rest[went.used..];
        if let Some(Event::Refused(Refusal::CheckWrong, wire, kept)) = went.event {
            hand_on(wire, kept, &body, out)?;
            failed = failed.wrapping_add(1);
        }
    }
    say(failed, out)
}

// The functions, each under its number.
fn tell(function: u8, text: &[u8], out: Stdout) -> io::Result<()> {
    match function {
        1 => say_finding(find(text), out),
        _ => hear(text, out),
    }
}

// Two bytes of a length.
fn take_length(mut input: Stdin) -> io::Result<usize>
    ensures { IfOk result (λ n. n ≤ 4096) }
{
    let mut two = [0u8; 2];
    read_full(&mut input, &mut two)?;
    Ok(usize::from(u16::from_le_bytes(two)).min(LONGEST_GIVEN))
}

// The programs of the second model's cases repeat the few lines below: handed out by a library, each would need a contract over what an input gives, a
// row and two wrong programs, which are longer than the lines.
// Runs one case. False at the end of the input.
fn run_case(mut input: Stdin, out: Stdout) -> io::Result<bool> {
    let mut one = [0u8; 1];
    if read_full(&mut input, &mut one)? == 0 {
        return Ok(false);
    }
    let [function] = one;
    let length = take_length(input)?;
    let mut space = [0u8; LONGEST_GIVEN];
    let text = &mut space[..length];
    read_full(&mut input, text)?;
    print!(out; "{function}")?;
    tell(function, text, out)?;
    print!(out; "\n")?;
    Ok(true)
}

// A proved loop has to end, but nothing says that an input ends. So the turns are counted up to a number that no run uses up.
fn main(rt: HostRuntime) -> io::Result<()> {
    for _ in 0..u64::MAX {
        if !run_case(rt.stdin(), rt.stdout())? {
            break;
        }
    }
    Ok(())
}
