// Cases of log records.
use crate::given::{take_byte, take_family, take_number, take_role, take_word};
use crate::lines::take_event;
use crate::weights::say_read;
use crate::words::{say_bytes, say_good, say_number, say_refusal, say_refused, say_small};
use records::Record;
use refusal::Refusal;
use std::io;
use std::io::{Stdin, Stdout};

// Eight bytes of the time, kind, address, four of the serial, status, W0 W1 W2, family.
fn take_record(input: Stdin) -> io::Result<Record> {
    Ok(Record {
        time: take_number(input)?,
        kind: take_byte(input)?,
        address: take_byte(input)?,
        serial: take_word(input)?,
        status: take_byte(input)?,
        w0: take_byte(input)?,
        w1: take_byte(input)?,
        w2: take_byte(input)?,
        family: take_byte(input)?,
    })
}

fn say_record(record: Record, out: Stdout) -> io::Result<()> {
    say_number(record.time, out)?;
    say_small(record.kind, out)?;
    say_small(record.address, out)?;
    say_number(record.serial as u64, out)?;
    say_small(record.status, out)?;
    let three = [record.w0, record.w1, record.w2];
    say_bytes(&three, out)?;
    say_small(record.family, out)
}

// Bytes; their record.
pub(crate) fn read(text: &[u8], out: Stdout) -> io::Result<()> {
    match records::read_record(text) {
        Err(why) => say_refusal(why, out),
        Ok(record) => {
            say_good(out)?;
            say_record(record, out)
        }
    }
}

// Body, eight bytes of the time, role, family and event; the record they make.
pub(crate) fn heard(text: &[u8], input: Stdin, out: Stdout) -> io::Result<()> {
    let time = take_number(input)?;
    let role = take_role(input)?;
    let family = take_family(input)?;
    let event = take_event(input)?;
    match weighing_log::note(time, role, family, Some(event), text) {
        Ok(None) => say_small(0, out),
        Ok(Some(record)) => {
            say_small(1, out)?;
            say_record(record, out)
        }
        Err(why) => say_refused(why, out),
    }
}

// Log and place; the record there and the place behind it.
pub(crate) fn step(text: &[u8], input: Stdin, out: Stdout) -> io::Result<()> {
    match records::step(text, take_number(input)? as usize) {
        Ok(None) => say_small(0, out),
        Ok(Some((record, next))) => {
            say_small(1, out)?;
            say_record(record, out)?;
            say_number(next as u64, out)
        }
        Err(why) => say_refused(why, out),
    }
}

// A record; the weight that it notes.
pub(crate) fn noted(input: Stdin, out: Stdout) -> io::Result<()> {
    say_read(records::weight_noted(take_record(input)?), out)
}

// Lent room and a record.
pub(crate) fn write(room: &mut [u8], input: Stdin) -> io::Result<Result<usize, Refusal>> {
    Ok(records::write_record(take_record(input)?, room))
}
