// Cases of the listing.
use crate::given::{take_family, take_number};
use crate::lines::take_event;
use refusal::Refusal;
use std::io;
use std::io::Stdin;

// Body, lent room, eight bytes of the line's number, the family, and the event.
pub(crate) fn write_line(
    text: &[u8],
    room: &mut [u8],
    input: Stdin,
) -> io::Result<Result<usize, Refusal>> {
    let number = take_number(input)?;
    let family = take_family(input)?;
    let event = take_event(input)?;
    Ok(listing::write_line(number, entries::heard(family, Some(event), text), room))
}

// Lent room, and three counts of eight bytes.
pub(crate) fn write_total(room: &mut [u8], input: Stdin) -> io::Result<Result<usize, Refusal>> {
    Ok(listing::write_total(
        take_number(input)?,
        take_number(input)?,
        take_number(input)?,
        room,
    ))
}
