// The walker: it holds the lent block and its place in it. Its functions are thin: `step_from`, on a slice and a number, does the work. A caller whose
// own functions are to be proved by search calls that one.
ghost use Rattle.std.specs.Prelude.{◌≡◌};
ghost use Rattle.capture_walker.specs.Walkers.{walker_at, WalkerSteps};

use crate::stepping::{Stepped, step_from};
use line::Event;

#[derive(Clone, Copy)]
pub struct Walker<'a> {
    pub block: &'a [u8],
    pub place: usize,
}

// "each step answers the next event and the walker moved on"
#[derive(Clone, Copy)]
pub struct Walked<'a> {
    pub next: Option<Event>,
    pub walker: Walker<'a>,
}

impl<'a> Walker<'a> {
    // Before the first byte of a block.
    pub fn new(block: &'a [u8]) -> Walker<'a>
        ensures { result ≡ walker_at block.entry 0 }
    {
        Walker { block, place: 0 }
    }

    // At any place handed in: behind that many bytes of the block, or past its end.
    pub fn at(block: &'a [u8], place: usize) -> Walker<'a>
        ensures { result ≡ walker_at block.entry place }
    {
        Walker { block, place }
    }

    // The next event, or "end". Only after a frame is there a body at the front of `body`.
    pub fn step<'b>(self, body: &'b mut [u8; 255]) -> Walked<'a>
        ensures { WalkerSteps self.entry body.old result body.new }
    {
        let Stepped { next, place } = step_from(self.block, self.place, body);
        Walked {
            next,
            walker: Walker { place, ..self },
        }
    }
}
