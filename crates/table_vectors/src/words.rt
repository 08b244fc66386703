// What an answer is made of: words, each behind a blank. A number is told in decimal, a signed one by its 64 bits in hex.
use hour_cell::{Cell, Slot};
use hour_mean::Fraction;
use hour_table::{Filled, table_of};
use refusal::Refusal;
use std::io;
use std::io::Stdout;

fn say_refusal(why: Refusal, out: Stdout) -> io::Result<()> {
    let number = u8::from(why);
    print!(out; " {number}")
}

pub(crate) fn say_truth(truth: bool, out: Stdout) -> io::Result<()> {
    let number = truth as u8;
    print!(out; " {number}")
}

pub(crate) fn say_slot(slot: Slot, out: Stdout) -> io::Result<()> {
    let Slot { weekday, hour } = slot;
    print!(out; " {weekday} {hour}")
}

fn say_cell(cell: Cell, out: Stdout) -> io::Result<()> {
    let Cell {
        weights,
        refused,
        sum,
    } = cell;
    let bits = sum.cast_unsigned();
    print!(out; " {weights} {refused} {bits:016x}")
}

pub(crate) fn say_added(added: Result<Cell, Refusal>, out: Stdout) -> io::Result<()> {
    match added {
        Err(why) => say_refusal(why, out),
        Ok(cell) => {
            print!(out; " 0")?;
            say_cell(cell, out)
        }
    }
}

pub(crate) fn say_mean(mean: Result<Option<Fraction>, Refusal>, out: Stdout) -> io::Result<()> {
    match mean {
        Err(why) => say_refusal(why, out),
        Ok(None) => print!(out; " 0 0"),
        Ok(Some(Fraction { upper, lower })) => {
            let upper_bits = upper.cast_unsigned();
            let lower_bits = lower.cast_unsigned();
            print!(out; " 0 1 {upper_bits:016x} {lower_bits:016x}")
        }
    }
}

fn is_told(cell: &Cell) -> bool {
    cell.weights != 0 || cell.refused != 0 || cell.sum != 0
}

// How many cells are not empty, and each of them behind its weekday and hour.
fn say_table(table: &[[Cell; 24]; 7], out: Stdout) -> io::Result<()> {
    let told = table.iter().flatten().filter(|cell| is_told(*cell)).count();
    print!(out; " {told}")?;
    for (weekday, row) in table.iter().enumerate() {
        for (hour, cell) in row.iter().enumerate() {
            if is_told(cell) {
                print!(out; " {weekday} {hour}")?;
                say_cell(*cell, out)?;
            }
        }
    }
    Ok(())
}

pub(crate) fn say_filled(filled: Filled, out: Stdout) -> io::Result<()> {
    let Filled {
        records,
        verdict,
        ..
    } = filled;
    match verdict {
        Ok(()) => print!(out; " 0")?,
        Err(why) => say_refusal(why, out)?,
    }
    print!(out; " {records}")?;
    say_table(&table_of(filled), out)
}
