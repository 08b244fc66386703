// Listening without a copy. The place goes by value, and the 255 bytes beside it are lent. A poller and the listing loop over this.
ghost use Rattle.line.specs.Readers.{Listens};

use crate::places::{Event, Place};

// What a block gives a place: the next place, the first event, and how many bytes of the block were taken.
#[derive(Clone, Copy, Debug, PartialEq, Eq)]
pub struct Went {
    pub place: Place,
    pub event: Option<Event>,
    pub used: usize,
}

impl Place {
    // Takes a block up to and including the first event, or to the block's end. The body of a frame just heard stands at the front of `body`.
    pub fn listen(self, block: &[u8], body: &mut [u8; 255]) -> Went
        ensures { Listens self block.now body.old result body.new }
    {
        if block.is_empty() {
            return Went {
                place: self,
                event: None,
                used: 0,
            };
        }
        let mut place = self.sound();
        for (at, byte) in block.iter().enumerate() {
            let moved = place.step(*byte, body);
            place = moved.place;
            if moved.event.is_some() {
                return Went {
                    place: place.place,
                    event: moved.event,
                    used: at + 1,
                };
            }
        }
        Went {
            place: place.place,
            event: None,
            used: block.len(),
        }
    }
}
