// The listing, for C.
ghost use Rattle.listing.specs.Writing.{written_total};
ghost use Rattle.crossing.specs.Writing.{LeavesAcross};
ghost use Rattle.quay_listing.specs.Lines.{Lists};

use crossing::{QuayEvent, QuayWritten};
use quay_listing::QuayListed;

// `quay_listing::quay_list_event`: writes the line of an event, as the event of that number. A frame's body stands at the front of the lent bytes
// and is judged again, by the family of the line. Judged 8 for a family or a kind of event that does not exist or a refusal that no line can meet,
// and then 9.
#[unsafe(no_mangle)]
pub extern "C" fn quay_list_event(
    number: u64,
    family: u8,
    event: QuayEvent,
    body: &[u8],
    room: &mut [u8],
) -> QuayListed
    ensures { Lists number family event body.now room.old result room.new }
{
    quay_listing::quay_list_event(number, family, event, body, room)
}

// `quay_listing::quay_list_total`: the last line of a listing. Judged 9.
#[unsafe(no_mangle)]
pub extern "C" fn quay_list_total(
    total: u64,
    weights: u64,
    refused: u64,
    room: &mut [u8],
) -> QuayWritten
    ensures { LeavesAcross (written_total total weights refused room.old) result room.new }
{
    quay_listing::quay_list_total(total, weights, refused, room)
}
