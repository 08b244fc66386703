// One step from a place of a block: the work, on a slice and a number. A walker's step is a thin cover over it.
ghost use Rattle.capture_walker.specs.Walking.{StepsFrom};

use crate::starting::{body_open, next_body, reach};
use line::Event;

// A step's answer, and the place behind it. To go on from the place behind an event is to walk on, also if the block has grown since. Behind "end" a
// body may be cut off: who waits for more of it goes on from the place behind the last event.
#[derive(Clone, Copy, Debug, PartialEq, Eq)]
pub struct Stepped {
    pub next: Option<Event>,
    pub place: usize,
}

// The next event from a place on, or "end". Only after a frame is there a body at the front of `body`, as long as the frame says: a refusal, and an
// end inside a body, leave there what was kept until then. "An empty block, or a place past its end, ends at once."
pub fn step_from(block: &[u8], place: usize, body: &mut [u8; 255]) -> Stepped
    ensures { StepsFrom block.now place body.old result body.new }
{
    let Some(start) = next_body(block, place) else {
        return Stepped {
            next: None,
            place: place.max(block.len()),
        };
    };
    let went = body_open(start).listen(reach(&block[start..]), body);
    Stepped {
        next: went.event,
        place: start + went.used,
    }
}
