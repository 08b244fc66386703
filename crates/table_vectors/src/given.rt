// What a case hands in, low byte first. Past the input's end it is 0.
ghost use Rattle.std.specs.Prelude.{◌≤◌, IfOk};

use blocks::read_full;
use hour_cell::Cell;
use hour_table::empty_table;
use records::Record;
use std::io;
use std::io::Stdin;

// The longest text.
pub(crate) const LONGEST_GIVEN: usize = 4096;

fn take<const COUNT: usize>(mut input: Stdin) -> io::Result<[u8; COUNT]> {
    let mut bytes = [0u8; COUNT];
    read_full(&mut input, &mut bytes)?;
    Ok(bytes)
}

fn take_byte(input: Stdin) -> io::Result<u8> {
    let [byte] = take::<1>(input)?;
    Ok(byte)
}

fn take_half(input: Stdin) -> io::Result<u16> {
    Ok(u16::from_le_bytes(take::<2>(input)?))
}

pub(crate) fn take_length(input: Stdin) -> io::Result<usize>
    ensures { IfOk result (λ n. n ≤ 4096) }
{
    Ok(usize::from(take_half(input)?).min(LONGEST_GIVEN))
}

// Eight bytes, asked for four at a time: at a terminal more may come behind an end.
fn take_eight(mut input: Stdin) -> io::Result<[u8; 8]> {
    let mut bytes = [0u8; 8];
    for four in bytes.chunks_exact_mut(4) {
        read_full(&mut input, four)?;
    }
    Ok(bytes)
}

pub(crate) fn take_long(input: Stdin) -> io::Result<u64> {
    Ok(u64::from_le_bytes(take_eight(input)?))
}

pub(crate) fn take_signed(input: Stdin) -> io::Result<i64> {
    Ok(i64::from_le_bytes(take_eight(input)?))
}

pub(crate) fn take_cell(input: Stdin) -> io::Result<Cell> {
    Ok(Cell {
        weights: take_half(input)?,
        refused: take_half(input)?,
        sum: take_signed(input)?,
    })
}

pub(crate) fn take_record(input: Stdin) -> io::Result<Record> {
    Ok(Record {
        time: take_long(input)?,
        kind: take_byte(input)?,
        address: take_byte(input)?,
        serial: u32::from_le_bytes(take::<4>(input)?),
        status: take_byte(input)?,
        w0: take_byte(input)?,
        w1: take_byte(input)?,
        w2: take_byte(input)?,
        family: take_byte(input)?,
    })
}

// A number of cells, each behind its weekday and hour; all others are empty.
pub(crate) fn take_table(input: Stdin) -> io::Result<[[Cell; 24]; 7]> {
    let mut table = empty_table();
    for _ in 0..take_byte(input)? {
        let weekday = (take_byte(input)? % 7) as usize;
        let hour = (take_byte(input)? % 24) as usize;
        table[weekday][hour] = take_cell(input)?;
    }
    Ok(table)
}
