// Writes lines into lent room. Each line is put together in an array of our own, and then laid into the room at once. A line is lent to
// what puts it together, and not handed over: its bytes would be copied.
ghost use Rattle.std.specs.Prelude.{◌≡◌, []};
ghost use Rattle.room.specs.Writing.{Leaves};
ghost use Rattle.entries.specs.Entries.{sound};
ghost use Rattle.listing.specs.Lines.{line_of, total_of};
ghost use Rattle.listing.specs.Writing.{written_line, written_total};

use crate::assembly::Line;
use body::Address;
use codes::Load;
use entries::Entry;
use refusal::{Refusal, line_status};
use room::write;
use weight::{Reading, in_range};

#[tactic(auto, using(crate::proofs::Lengths::sizes))]
fn put_weight(line: &mut Line, number: u64, load: Load, address: Address, reading: Reading)
    requires { line.old ≡ [] }
    ensures { line.new ≡ line_of number (Some (Entry.Weight load address reading)) }
{
    line.put_reading(reading);
    line.put_address(address);
    line.put_load(load);
    line.put_decimal(number);
}

#[tactic(auto, using(crate::proofs::Lengths::sizes))]
fn put_message(line: &mut Line, number: u64, address: Address, code: u8)
    requires { line.old ≡ [] }
    ensures { line.new ≡ line_of number (Some (Entry.Message address code)) }
{
    line.put_code(code);
    line.put_address(address);
    line.put(b" message ");
    line.put_decimal(number);
}

#[tactic(auto, using(crate::proofs::Lengths::sizes))]
fn put_refused(line: &mut Line, number: u64, why: Refusal)
    requires { line.old ≡ [] }
    ensures { line.new ≡ line_of number (Some (Entry.Refused why)) }
{
    line.put(b"\n");
    line.put_counted(b" refused ", u8::from(why) as u64);
    line.put_decimal(number);
}

// The line of an entry. If nothing was heard, there is no line.
fn put_line(line: &mut Line, number: u64, entry: Option<Entry>)
    requires { line.old ≡ [] }
    ensures { line.new ≡ line_of number entry }
{
    match entry {
        None => {}
        Some(Entry::Weight(load, address, reading)) => {
            put_weight(line, number, load, address, reading);
        }
        Some(Entry::Message(address, code)) => put_message(line, number, address, code),
        Some(Entry::Refused(why)) => put_refused(line, number, why),
    }
}

#[tactic(auto, using(crate::proofs::Lengths::sizes))]
fn put_total(line: &mut Line, total: u64, weights: u64, refused: u64)
    requires { line.old ≡ [] }
    ensures { line.new ≡ total_of total weights refused }
{
    line.put(b"\n");
    line.put_counted(b" refused ", refused);
    line.put_counted(b" weights ", weights);
    line.put_counted(b"total ", total);
}

// 8 is given for a reading whose number or point is out of its range or whose family reserves a bit that is set, and for a refusal that no line can meet.
fn is_sound(entry: Option<Entry>) -> bool
    ensures { result ≡ sound entry }
{
    match entry {
        Some(Entry::Weight(_, _, reading)) => in_range(reading),
        Some(Entry::Refused(why)) => line_status(u8::from(why)),
        None | Some(Entry::Message(_, _)) => true,
    }
}

// Writes the line of an entry, as the event of that number, into lent room. Judged 8, 9. If nothing was heard, there is no line.
#[tactic(auto, unfolding(crate::specs::Writing::written_line, room::specs::Writing::written))]
pub fn write_line(number: u64, entry: Option<Entry>, room: &mut [u8]) -> Result<usize, Refusal>
    ensures { Leaves (written_line number entry room.old) result room.new }
{
    if !is_sound(entry) {
        return Err(Refusal::FieldOutside);
    }
    let mut line = Line::new();
    put_line(&mut line, number, entry);
    write(line.bytes(), room)
}

// Writes the last line of a listing into lent room. Judged 9.
#[tactic(auto, unfolding(crate::specs::Writing::written_total))]
pub fn write_total(
    total: u64,
    weights: u64,
    refused: u64,
    room: &mut [u8],
) -> Result<usize, Refusal>
    ensures { Leaves (written_total total weights refused room.old) result room.new }
{
    let mut line = Line::new();
    put_total(&mut line, total, weights, refused);
    write(line.bytes(), room)
}
