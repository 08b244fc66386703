// The reader: its state is handed in by value and handed back, one byte or one block at a time.
ghost use Rattle.std.specs.Prelude.{◌≡◌};
ghost use Rattle.line.specs.Readers.{Takes, Feeds, fresh_reader};

use crate::places::{Event, Place};

// The state of a reader. The kept bytes stand at the front of `body`. The bytes behind them are of older bodies.
#[derive(Clone, Copy)]
pub struct Reader {
    pub place: Place,
    pub body: [u8; 255],
}

// What one byte gives: the next state, and the event.
#[derive(Clone, Copy)]
pub struct Taken {
    pub reader: Reader,
    pub event: Option<Event>,
}

// What a block gives: the next state, the first event, and how many bytes of the block were taken.
#[derive(Clone, Copy)]
pub struct Fed {
    pub reader: Reader,
    pub event: Option<Event>,
    pub used: usize,
}

impl Reader {
    // A fresh reader seeks.
    pub fn new() -> Self
        ensures { result ≡ fresh_reader }
    {
        Reader {
            place: Place::fresh(),
            body: [0u8; 255],
        }
    }

    // One byte in, next state and event out. The body of a frame just heard stands at the front of the state's `body`.
    pub fn take(mut self, byte: u8) -> Taken
        ensures { Takes self byte result }
    {
        let moved = self.place.sound().step(byte, &mut self.body);
        self.place = moved.place.place;
        Taken {
            reader: self,
            event: moved.event,
        }
    }

    // Takes a block up to and including the first event, or to the block's end. The 255 bytes are copied once for a block.
    pub fn feed(mut self, block: &[u8]) -> Fed
        ensures { Feeds self block.now result }
    {
        let went = self.place.listen(block, &mut self.body);
        self.place = went.place;
        Fed {
            reader: self,
            event: went.event,
            used: went.used,
        }
    }
}
