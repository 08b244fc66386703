// A block fed to a reader whose place goes by value and whose 255 bytes are lent.
ghost use Rattle.std.specs.Prelude.{◌≡◌};
ghost use Rattle.quay_line.specs.Listening.{went_out, Listened};

use crate::places::{QuayPlace, event_out};
use crossing::QuayEvent;
use line::{Place, Went};

// The next place, the first event, and how many bytes of the block were taken.
#[repr(C)]
#[derive(Clone, Copy, Debug, PartialEq, Eq)]
pub struct QuayWent {
    pub place: QuayPlace,
    pub event: QuayEvent,
    pub used: usize,
    pub refusal: u8, // of the call: 8 where the place handed in has a phase that does not exist
}

impl From<Went> for QuayWent {
    ghost from_gives = { λ went answered. answered ≡ went_out went };

    fn from(went: Went) -> QuayWent {
        QuayWent {
            place: QuayPlace::from(went.place),
            event: event_out(went.event),
            used: went.used,
            refusal: 0,
        }
    }
}

// Takes a block up to and including the first event, or to the block's end. The body of a frame just heard stands at the front of `body`.
// The caller lends `body` again with the next block, as it was left.
#[unsafe(no_mangle)]
pub extern "C" fn quay_listen(place: QuayPlace, block: &[u8], body: &mut [u8; 255]) -> QuayWent
    ensures { Listened place block.now body.old result body.new }
{
    match Place::try_from(place) {
        Ok(place) => QuayWent::from(place.listen(block, body)),
        Err(why) => QuayWent {
            place,
            event: event_out(None),
            used: 0,
            refusal: u8::from(why),
        },
    }
}
