// Listening, byte by byte and block by block. Both places of each event go into the sum, and so does the number of a refusal.
use crate::tally::{Counts, Tally};
use line::{BodyPlace, Event, Taken, WirePlace};

fn places(wire: WirePlace, kept: BodyPlace) -> u64 {
    wire.0.wrapping_add(kept.0 as u64)
}

fn add(counts: &mut Counts, event: Option<Event>) {
    match event {
        None => {}
        Some(Event::Frame(wire, kept)) => counts.add_good(places(wire, kept)),
        Some(Event::Refused(why, wire, kept)) => counts.add_refused(why, places(wire, kept)),
    }
}

impl Tally {
    // Takes a block to its end. The reader is handed in and out by value with each byte.
    pub(crate) fn take_bytes(&mut self, block: &[u8]) {
        let Tally {
            mut reader,
            mut counts,
        } = *self;
        for byte in block {
            let Taken {
                reader: next,
                event,
            } = reader.take(*byte);
            reader = next;
            add(&mut counts, event);
        }
        *self = Tally { reader, counts };
    }

    // Takes a block to its end, event by event. The reader is taken apart once.
    pub(crate) fn listen(&mut self, block: &[u8]) {
        let Tally {
            mut reader,
            mut counts,
        } = *self;
        let mut place = reader.place;
        let mut rest = block;
        // Each turn goes on by an event and not by a byte, so there is a measure and no `for`.
        while !rest.is_empty() {
            let went = place.listen(rest, &mut reader.body);
            place = went.place;
            rest = &rest[went.used..];
            add(&mut counts, went.event);
        }
        reader.place = place;
        *self = Tally { reader, counts };
    }
}
