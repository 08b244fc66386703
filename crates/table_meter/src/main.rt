// bench/run measures with this program what filling the weekday and hour table costs. It fills one table from blocks of 2,800 records of standard input.
// At the end it tells how many records went in, in how many blocks it stopped, and a sum over all cells. The same work in C tells the same.

#![tactic(auto)]

use blocks::read_full;
use hour_cell::Cell;
use hour_table::{empty_table, fill, table_of};
use refusal::Refusal;
use std::io;
use std::io::Read;

const BLOCK: usize = 56_000;

fn sum_of_cell(cell: Cell) -> u64 {
    let counts = (cell.weights as u64).wrapping_add(cell.refused as u64);
    counts.wrapping_add(hour_cell::size_of(cell.sum))
}

fn sum_of_row(row: &[Cell; 24]) -> u64 {
    row.iter()
        .fold(0, |sum: u64, cell| sum.wrapping_add(sum_of_cell(*cell)))
}

fn sum_of(table: &[[Cell; 24]; 7]) -> u64 {
    table
        .iter()
        .fold(0, |sum: u64, row| sum.wrapping_add(sum_of_row(row)))
}

fn stops(verdict: Result<(), Refusal>) -> u64 {
    verdict.is_err() as u64
}

struct Told {
    good: u64,
    stopped: u64,
    sum: u64,
}

// A proved loop has to end, but nothing says that an input ends. So the turns are counted up to a number that no run uses up.
// The meters repeat this loop: a library function over what is done with a block would need a `requires` on it, and no public function has one.
fn fill_all(input: &mut impl Read, block: &mut [u8]) -> io::Result<Told> {
    let mut table = empty_table();
    let mut good = 0u64;
    let mut stopped = 0u64;
    for _ in 0..u64::MAX {
        let count = read_full(input, block)?;
        if count == 0 {
            break;
        }
        let filled = fill(&block[..count], table);
        good = good.wrapping_add(filled.records as u64);
        stopped = stopped.wrapping_add(stops(filled.verdict));
        table = table_of(filled);
    }
    Ok(Told {
        good,
        stopped,
        sum: sum_of(&table),
    })
}

fn main(rt: HostRuntime) -> io::Result<()> {
    let mut block = [0u8; BLOCK];
    let Told { good, stopped, sum } = fill_all(&mut rt.stdin(), &mut block)?;
    println!(rt; "good {good} refused {stopped} sum {sum}")
}
