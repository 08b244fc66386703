// Cases of the capture walker: one step, and a walk to the end.
use crate::given::{part, take_half, take_number};
use crate::lines::say_event;
use crate::words::{say_bytes, say_number};
use capture_walker::{Stepped, Walker, step_from};
use line::Event;
use room::lay;
use std::io;
use std::io::{Stdin, Stdout};

// One step of a walker made at a place. A walker is made and taken apart here alone, so that no other function has one in its locals.
fn step_of_walker(block: &[u8], place: usize, body: &mut [u8; 255]) -> Stepped {
    let first = Walker::new(block);
    let walked = Walker::at(first.block, place).step(body);
    Stepped {
        next: walked.next,
        place: walked.walker.place,
    }
}

// What a step answers, and the place behind it.
fn say_stepped(next: Option<Event>, behind: usize, body: &[u8], out: Stdout) -> io::Result<()> {
    say_event(next, body, out)?;
    say_number(behind as u64, out)
}

// Lent bytes and block, two bytes of how many are lent, eight of the place; the step's answer, and all 255 bytes as it leaves them.
pub(crate) fn step(text: &[u8], input: Stdin, out: Stdout) -> io::Result<()> {
    let end = take_half(input)?;
    let place = take_number(input)? as usize;
    let mut body = [0u8; 255];
    lay(part(text, 0, end), &mut body, 0);
    let Stepped {
        next,
        place: behind,
    } = step_of_walker(part(text, end, text.len()), place, &mut body);
    say_stepped(next, behind, &body, out)?;
    say_bytes(&body, out)
}

// Walks on to the end and tells each event. How many there were is told behind them; the place at the end is answered.
fn walk_to_end(block: &[u8], from: usize, body: &mut [u8; 255], out: Stdout) -> io::Result<usize> {
    let mut place = from;
    let mut events = 0u64;
    loop {
        let Stepped {
            next,
            place: behind,
        } = step_from(block, place, body);
        if next.is_none() {
            say_number(events, out)?;
            return Ok(behind);
        }
        say_stepped(next, behind, body, out)?;
        place = behind;
        events = events.wrapping_add(1);
    }
}

// Block, and eight bytes of the place; each event and the place behind it, their number, the place at the end, and what one step more answers.
pub(crate) fn walk(text: &[u8], input: Stdin, out: Stdout) -> io::Result<()> {
    let from = take_number(input)? as usize;
    let mut body = [0u8; 255];
    let end = walk_to_end(text, from, &mut body, out)?;
    say_number(end as u64, out)?;
    let Stepped {
        next,
        place: behind,
    } = step_from(text, end, &mut body);
    say_stepped(next, behind, &body, out)
}
