// Cases of the check byte and of frames.
use crate::given::{part, take_address, take_byte};
use crate::words::{
    say_address, say_bytes, say_flag, say_good, say_number, say_refusal, say_small, say_verdict,
};
use body::Parts;
use refusal::Refusal;
use std::io;
use std::io::{Stdin, Stdout};

// Register and byte; the register.
pub(crate) fn feed(input: Stdin, out: Stdout) -> io::Result<()> {
    let register = take_byte(input)?;
    say_small(check_byte::feed(register, take_byte(input)?), out)
}

// Bytes; the register that starts at 0 and is fed them.
pub(crate) fn feed_all(text: &[u8], out: Stdout) -> io::Result<()> {
    say_small(check_byte::feed_all(0, text), out)
}

// Bytes; their check.
pub(crate) fn check_of(text: &[u8], out: Stdout) -> io::Result<()> {
    say_small(check_byte::check_of(text), out)
}

// An address; whether it may stand in a frame.
pub(crate) fn legal(input: Stdin, out: Stdout) -> io::Result<()> {
    say_flag(body::legal(take_address(input)?), out)
}

// A body that ended; its verdict.
pub(crate) fn judge(text: &[u8], out: Stdout) -> io::Result<()> {
    say_verdict(body::judge(text), out)
}

fn say_parts(parts: Parts, body: &[u8], out: Stdout) -> io::Result<()> {
    say_good(out)?;
    say_address(parts.address, out)?;
    say_small(parts.code, out)?;
    say_bytes(part(body, parts.from, parts.to), out)
}

// A lent body; its address, code and data.
pub(crate) fn open(text: &[u8], out: Stdout) -> io::Result<()> {
    match body::open(text) {
        Err(why) => say_refusal(why, out),
        Ok(parts) => say_parts(parts, text, out),
    }
}

// Data, address and code; the room that their frame needs.
pub(crate) fn room_needed(text: &[u8], input: Stdin, out: Stdout) -> io::Result<()> {
    match frame::room_needed(take_address(input)?, take_byte(input)?, text) {
        Err(why) => say_refusal(why, out),
        Ok(needed) => {
            say_good(out)?;
            say_number(needed as u64, out)
        }
    }
}

// Data, lent room, address and code.
pub(crate) fn write(
    text: &[u8],
    room: &mut [u8],
    input: Stdin,
) -> io::Result<Result<usize, Refusal>> {
    Ok(frame::write(take_address(input)?, take_byte(input)?, text, room))
}
