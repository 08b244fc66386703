// Cases of the listener: one byte, one block, a whole capture.
ghost use Rattle.std.specs.Prelude.{◌<◌, ◌≤◌, length};

use crate::given::{part, take_byte, take_half, take_number};
use crate::words::{say_bytes, say_number, say_refused, say_small, say_tagged};
use line::{BodyPlace, Event, Fed, Phase, Place, Reader, Taken, WirePlace};
use refusal::Refusal;
use room::lay;
use std::io;
use std::io::{Stdin, Stdout};

fn take_phase(input: Stdin) -> io::Result<Phase> {
    Ok(match take_byte(input)? {
        0 => Phase::Seeking,
        1 => Phase::Delimited,
        2 => Phase::Inside,
        _ => Phase::Held,
    })
}

// Phase, eight bytes of the wire count, eight of the kept count.
fn take_place(input: Stdin) -> io::Result<Place> {
    Ok(Place {
        phase: take_phase(input)?,
        wire: WirePlace(take_number(input)?),
        kept: BodyPlace(take_number(input)? as usize),
    })
}

// The refusal's number (for a frame, the number that stands for none), eight bytes of the wire count, eight of the kept count.
pub(crate) fn take_event(input: Stdin) -> io::Result<Event> {
    let number = take_byte(input)?;
    let wire = WirePlace(take_number(input)?);
    let kept = BodyPlace(take_number(input)? as usize);
    Ok(match Refusal::try_from(number) {
        Ok(why) => Event::Refused(why, wire, kept),
        Err(_) => Event::Frame(wire, kept),
    })
}

// A state with some bytes at the front of its 255, zeros behind them.
fn take_reader(kept: &[u8], input: Stdin) -> io::Result<Reader> {
    let mut body = [0u8; 255];
    lay(kept, &mut body, 0);
    Ok(Reader {
        place: take_place(input)?,
        body,
    })
}

fn phase_number(phase: Phase) -> u8 {
    match phase {
        Phase::Seeking => 0,
        Phase::Delimited => 1,
        Phase::Inside => 2,
        Phase::Held => 3,
    }
}

// A state handed back. The bytes behind its kept bytes are of older bodies and are not told.
fn say_place(place: Place, body: &[u8], out: Stdout) -> io::Result<()> {
    let kept = place.kept.0;
    say_small(phase_number(place.phase), out)?;
    say_number(place.wire.0, out)?;
    say_number(kept as u64, out)?;
    say_bytes(part(body, 0, kept), out)
}

// What an event tells: its counts, and the body or the refusal's number.
pub(crate) fn say_event(event: Option<Event>, body: &[u8], out: Stdout) -> io::Result<()> {
    match event {
        None => say_small(0, out),
        Some(Event::Frame(wire, kept)) => {
            say_tagged(1, wire.0, out)?;
            say_number(kept.0 as u64, out)?;
            say_bytes(part(body, 0, kept.0), out)
        }
        Some(Event::Refused(why, wire, kept)) => {
            say_refused(why, out)?;
            say_number(wire.0, out)?;
            say_number(kept.0 as u64, out)
        }
    }
}

// The next state, the bytes taken, the event.
fn say_heard(reader: Reader, used: usize, event: Option<Event>, out: Stdout) -> io::Result<()> {
    say_place(reader.place, &reader.body, out)?;
    say_number(used as u64, out)?;
    say_event(event, &reader.body, out)
}

// Bytes of the state, place, byte; the next state, the one byte taken, the event.
pub(crate) fn take(text: &[u8], input: Stdin, out: Stdout) -> io::Result<()> {
    let reader = take_reader(text, input)?;
    let Taken {
        reader: next,
        event,
    } = reader.take(take_byte(input)?);
    say_heard(next, 1, event, out)
}

// Bytes of the state and block, two bytes of how many are of the state, place; the next state, the bytes taken, the event.
pub(crate) fn feed(text: &[u8], input: Stdin, out: Stdout) -> io::Result<()> {
    let end = take_half(input)?;
    let reader = take_reader(part(text, 0, end), input)?;
    let Fed {
        reader: next,
        event,
        used,
    } = reader.feed(part(text, end, text.len()));
    say_heard(next, used, event, out)
}

// The same, with the 255 bytes lent.
pub(crate) fn listen(text: &[u8], input: Stdin, out: Stdout) -> io::Result<()> {
    let end = take_half(input)?;
    let reader = take_reader(part(text, 0, end), input)?;
    let Reader { place, mut body } = reader;
    let went = place.listen(part(text, end, text.len()), &mut body);
    let next = Reader {
        place: went.place,
        body,
    };
    say_heard(next, went.used, went.event, out)
}

// The front of a capture that is not empty: at most so many bytes, and one at least. A size of 0 is no bound.
fn next_block(capture: &[u8], size: usize) -> &[u8]
    requires { 0 < length capture.now }
    ensures { (0 < length result.now) × (length result.now ≤ length capture.now) }
{
    match size {
        0 => capture,
        _ => capture.get(..size).unwrap_or(capture),
    }
}

// Capture and block size; its events from a fresh reader, and how many they are.
pub(crate) fn hear(text: &[u8], input: Stdin, out: Stdout) -> io::Result<()> {
    let size = take_half(input)?;
    let mut reader = Reader::new();
    let mut events = 0u64;
    let mut rest = text;
    // Each turn goes on by an event and not by a byte, so there is a measure and no `for`.
    while !rest.is_empty() {
        let Fed {
            reader: next,
            event,
            used,
        } = reader.feed(next_block(rest, size));
        reader = next;
        rest = &rest[used..];
        if event.is_some() {
            say_event(event, &reader.body, out)?;
            events = events.wrapping_add(1);
        }
    }
    say_number(events, out)
}
