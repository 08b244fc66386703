// Events as numbers.
ghost use Rattle.std.specs.Prelude.{◌≡◌};
ghost use Rattle.crossing.specs.Events.{event_from};

use line::{BodyPlace, Event, WirePlace};
use refusal::{Refusal, line_status};

// An event of the line. C has no enums with fields: `kind` says which one it is, and this struct's layout is the interface.
#[repr(C)]
#[derive(Clone, Copy, Debug, PartialEq, Eq)]
pub struct QuayEvent {
    pub wire: u64, // the place on the wire
    pub kept: usize, // the place in the body; for a frame, how many bytes its body has
    pub kind: u8, // 0 nothing, 1 a frame, 2 a refusal
    pub refusal: u8, // the number of a refusal met on the line
}

// An event handed in. A kind above 2, or a refusal that no line can meet, is refused by 8.
// A function: `Option::<Event>::try_from(event)` is no plainer than this name.
#[tactic(auto, unfolding(crate::specs::Events::event_from))]
pub fn event_from(event: QuayEvent) -> Result<Option<Event>, Refusal>
    ensures { result ≡ event_from event }
{
    let wire = WirePlace(event.wire);
    let kept = BodyPlace(event.kept);
    match event.kind {
        0 => Ok(None),
        1 => Ok(Some(Event::Frame(wire, kept))),
        2 if line_status(event.refusal) => {
            let why = Refusal::try_from(event.refusal).or(Err(Refusal::FieldOutside))?;
            Ok(Some(Event::Refused(why, wire, kept)))
        }
        _ => Err(Refusal::FieldOutside),
    }
}
