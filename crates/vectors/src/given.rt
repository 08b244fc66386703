// What a case hands in beside its text: numbers, low byte first, taken from standard input one after the other. Past the input's end they
// are 0. So a case cut short gives a wrong answer, and that is seen.
ghost use Rattle.std.specs.Prelude.{◌<◌, ◌≤◌, IfOk};

use blocks::read_full;
use body::Address;
use codes::Role;
use std::io;
use std::io::Stdin;
use weight::{Family, Reading};

// The longest text, and the longest room.
pub(crate) const LONGEST_GIVEN: usize = 4096;

// Each byte is asked for by itself: at a terminal more may come behind an end.
fn take<const COUNT: usize>(mut input: Stdin) -> io::Result<[u8; COUNT]> {
    let mut bytes = [0u8; COUNT];
    for byte in bytes.chunks_exact_mut(1) {
        read_full(&mut input, byte)?;
    }
    Ok(bytes)
}

pub(crate) fn take_byte(input: Stdin) -> io::Result<u8> {
    let [byte] = take::<1>(input)?;
    Ok(byte)
}

pub(crate) fn take_flag(input: Stdin) -> io::Result<bool> {
    Ok(take_byte(input)? != 0)
}

// Two bytes.
pub(crate) fn take_half(input: Stdin) -> io::Result<usize>
    ensures { IfOk result (λ n. n < 65536) }
{
    Ok(usize::from(u16::from_le_bytes(take::<2>(input)?)))
}

// Two bytes of a length.
pub(crate) fn take_length(input: Stdin) -> io::Result<usize>
    ensures { IfOk result (λ n. n ≤ 4096) }
{
    Ok(take_half(input)?.min(LONGEST_GIVEN))
}

// Four bytes.
pub(crate) fn take_word(input: Stdin) -> io::Result<u32> {
    Ok(u32::from_le_bytes(take::<4>(input)?))
}

// Eight bytes.
pub(crate) fn take_number(input: Stdin) -> io::Result<u64> {
    Ok(u64::from_le_bytes(take::<8>(input)?))
}

// 0 for a short address and 1 for a serial, and four bytes of its number.
pub(crate) fn take_address(input: Stdin) -> io::Result<Address> {
    let is_serial = take_flag(input)?;
    let number = take_word(input)?;
    if is_serial {
        return Ok(Address::Serial(number));
    }
    Ok(Address::Short((number & 0xff) as u8))
}

// 0 for a request and 1 for a reply.
pub(crate) fn take_role(input: Stdin) -> io::Result<Role> {
    if take_flag(input)? {
        return Ok(Role::Reply);
    }
    Ok(Role::Request)
}

// A family by its number. One that does not exist is handed in by none of the cases.
pub(crate) fn take_family(input: Stdin) -> io::Result<Family> {
    Ok(Family::try_from(take_byte(input)?).unwrap_or(Family::Plain))
}

// Minus, four bytes of the number, point, bit 6, bit 5, settled, overload, family.
pub(crate) fn take_reading(input: Stdin) -> io::Result<Reading> {
    Ok(Reading {
        minus: take_flag(input)?,
        number: take_word(input)?,
        point: take_byte(input)?,
        bit6: take_flag(input)?,
        bit5: take_flag(input)?,
        settled: take_flag(input)?,
        overload: take_flag(input)?,
        family: take_family(input)?,
    })
}

// The bytes from one place up to but not including another. A part past the end is empty.
pub(crate) fn part(text: &[u8], from: usize, to: usize) -> &[u8] {
    text.get(from..to).unwrap_or(&[])
}
