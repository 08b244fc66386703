// Events as lines of text, and the total line.
ghost use Rattle.std.specs.Prelude.{◌≡◌};
ghost use Rattle.listing.specs.Writing.{written_total};
ghost use Rattle.crossing.specs.Events.{event_from};
ghost use Rattle.crossing.specs.Families.{family_from};
ghost use Rattle.crossing.specs.Writing.{LeavesAcross};
ghost use Rattle.quay_listing.specs.Lines.{entry_number, entry_given, unlisted, Lists, ListsEntry};

use crossing::{QuayEvent, QuayWritten, event_from};
use entries::{Entry, heard};
use listing::{write_line, write_total};
use refusal::Refusal;
use weight::Family;

// The line's length, or 0 beside a refusal. And what was listed, for the counts of the total.
#[repr(C)]
#[derive(Clone, Copy, Debug, PartialEq, Eq)]
pub struct QuayListed {
    pub length: usize,
    pub entry: u8, // 0 nothing, 1 a weight, 2 another message, 3 a refusal
    pub refusal: u8,
}

// A function: `Entry` is declared in `entries`, so no `From` of it can stand here.
fn entry_number(entry: Option<Entry>) -> u8
    ensures { result ≡ entry_number entry }
{
    match entry {
        None => 0,
        Some(Entry::Weight(_, _, _)) => 1,
        Some(Entry::Message(_, _)) => 2,
        Some(Entry::Refused(_)) => 3,
    }
}

impl From<Refusal> for QuayListed {
    ghost from_gives = { λ why answered. answered ≡ unlisted why };

    fn from(why: Refusal) -> QuayListed {
        QuayListed {
            length: 0,
            entry: 0,
            refusal: u8::from(why),
        }
    }
}

fn list_entry(number: u64, entry: Option<Entry>, room: &mut [u8]) -> QuayListed
    ensures { ListsEntry number entry room.old result room.new }
{
    let written = QuayWritten::from(write_line(number, entry, room));
    QuayListed {
        length: written.length,
        entry: entry_number(entry),
        refusal: written.refusal,
    }
}

// What an event that was handed in lists as, by a family that was handed in.
#[tactic(auto, using(crossing::proofs::Crossing::family_crosses))]
fn entry_given(family: u8, event: QuayEvent, body: &[u8]) -> Result<Option<Entry>, Refusal>
    ensures { result ≡ entry_given (family_from family) (event_from event) body.now }
{
    let family = Family::try_from(family)?;
    let event = event_from(event)?;
    Ok(heard(family, event, body))
}

// Writes the line of an event, as the event of that number. A frame's body stands at the front of the lent bytes and is judged again, by
// the family of the line. Judged 8 for a family or a kind of event that does not exist or a refusal that no line can meet, and then 9.
#[unsafe(no_mangle)]
pub extern "C" fn quay_list_event(
    number: u64,
    family: u8,
    event: QuayEvent,
    body: &[u8],
    room: &mut [u8],
) -> QuayListed
    ensures { Lists number family event body.now room.old result room.new }
{
    match entry_given(family, event, body) {
        Ok(entry) => list_entry(number, entry, room),
        Err(why) => QuayListed::from(why),
    }
}

// The last line of a listing. Judged 9.
#[unsafe(no_mangle)]
#[tactic(auto, using(crossing::proofs::Crossing::crosses))]
pub extern "C" fn quay_list_total(
    total: u64,
    weights: u64,
    refused: u64,
    room: &mut [u8],
) -> QuayWritten
    ensures { LeavesAcross (written_total total weights refused room.old) result room.new }
{
    QuayWritten::from(write_total(total, weights, refused, room))
}
