// Records into a table: 31 of any lent cell, then record by record 10 and 11 as the log gives them, and 23. At a refusal the table stays as before that
// record, and nothing behind it goes in.
ghost use Rattle.std.specs.Prelude.{◌≡◌, ◌/◌};
ghost use Rattle.hour_table.specs.Filling.{gone_in, put, entered, from_here, filled_from};

use crate::filled::Filled;
use crate::tables::is_sound_table;
use hour_cell::{Cell, CountsAs, Slot, add_refused, add_weight, counts_as, slot_of};
use records::{RECORD_BYTES, Record, step};
use refusal::Refusal;

// A record into the cell of its time. Refused, every cell stays. Each kind writes its own cell: where the two ways meet first, the compiler judges a
// record twice, and filling costs more than 1.3 of C.
#[tactic(auto, unfolding(crate::specs::Filling::put, hour_cell::specs::Slots::slot_of))]
fn put(item: Record, table: &mut [[Cell; 24]; 7]) -> Result<(), Refusal>
    ensures cells { table.new ≡ (put item table.old).table }
    ensures verdict { result ≡ (put item table.old).verdict }
{
    let counted = counts_as(item)?;
    let Slot { weekday, hour } = slot_of(item.time);
    match counted {
        CountsAs::Weight(tenths) => table[weekday][hour] = add_weight(
            tenths,
            table[weekday][hour],
        )?,
        CountsAs::Met => table[weekday][hour] = add_refused(table[weekday][hour])?,
        CountsAs::Nothing => {}
    }
    Ok(())
}

// A record was tried: it has gone in exactly if it is not refused.
fn tried(table: [[Cell; 24]; 7], verdict: Result<(), Refusal>) -> Filled
    ensures { result ≡ record { table = table; records = gone_in verdict; verdict = verdict } }
{
    let records = match verdict {
        Ok(()) => 1,
        Err(_) => 0,
    };
    Filled {
        table,
        records,
        verdict,
    }
}

// One record into a table.
#[tactic(auto, using(crate::proofs::Entered::put_whole), unfolding(crate::specs::Filling::entered))]
pub fn enter(item: Record, table: [[Cell; 24]; 7]) -> Filled
    ensures { result ≡ entered item table }
{
    if !is_sound_table(&table) {
        return Filled {
            table,
            records: 0,
            verdict: Err(Refusal::SumBeyond),
        };
    }
    let mut cells = table;
    let verdict = put(item, &mut cells);
    tried(cells, verdict)
}

// Record by record from a place on, up to the end of the log or to the first refusal. The place goes on behind each record that went in.
fn pour(log: &[u8], place: &mut usize, table: &mut [[Cell; 24]; 7]) -> Result<(), Refusal>
    ensures { record { table = table.new; records = place.new / 20; verdict = result } ≡ from_here log.now (place.old / 20) place.old table.old }
{
    while let Some((item, next)) = step(log, *place)? {
        put(item, table)?;
        *place = next;
    }
    Ok(())
}

// A log was poured up to a place: the records ahead of it have gone in.
fn poured_to(place: usize, cells: [[Cell; 24]; 7], ending: Result<(), Refusal>) -> Filled
    ensures { result ≡ record { table = cells; records = place / 20; verdict = ending } }
{
    Filled {
        table: cells,
        records: place / RECORD_BYTES,
        verdict: ending,
    }
}

// A lent log into a table. The table goes by value, the form that is expected here, in and into the answer; a record replaces its cell.
#[tactic(auto, unfolding(crate::specs::Filling::filled_from))]
pub fn fill(log: &[u8], table: [[Cell; 24]; 7]) -> Filled
    ensures { result ≡ filled_from log.now table }
{
    if !is_sound_table(&table) {
        return Filled {
            table,
            records: 0,
            verdict: Err(Refusal::SumBeyond),
        };
    }
    let mut cells = table;
    let mut place = 0;
    let ending = pour(log, &mut place, &mut cells);
    poured_to(place, cells, ending)
}
