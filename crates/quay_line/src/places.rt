// Where a reader stands, and the events it gives, as numbers.
ghost use Rattle.std.specs.Prelude.{◌≡◌};
ghost use Rattle.quay_line.specs.Places.{phase_number, place_out, place_given, event_out};

use crossing::QuayEvent;
use line::{BodyPlace, Event, Phase, Place, WirePlace};
use refusal::Refusal;

// Where a reader stands. All zeros are a fresh reader. Its phase is a number for C, and this struct's layout is the interface.
#[repr(C)]
#[derive(Clone, Copy, Debug, PartialEq, Eq)]
pub struct QuayPlace {
    pub wire: u64, // bytes taken since the reader started
    pub kept: usize, // body bytes kept
    pub phase: u8, // 0 seeking, 1 delimited, 2 inside, 3 held
}

// A function: `Phase` is declared in `line`, so no `From` of it can stand here.
fn phase_number(phase: Phase) -> u8
    ensures { result ≡ phase_number phase }
{
    match phase {
        Phase::Seeking => 0,
        Phase::Delimited => 1,
        Phase::Inside => 2,
        Phase::Held => 3,
    }
}

impl From<Place> for QuayPlace {
    ghost from_gives = { λ place answered. answered ≡ place_out place };

    fn from(place: Place) -> QuayPlace {
        QuayPlace {
            wire: place.wire.0,
            kept: place.kept.0,
            phase: phase_number(place.phase),
        }
    }
}

// A place handed in. If its phase does not exist it is refused by 8.
impl TryFrom<QuayPlace> for Place {
    type Error = Refusal;

    ghost try_from_gives = { λ place result. result ≡ place_given place };

    #[tactic(auto, unfolding(crate::specs::Places::phase_from))]
    fn try_from(place: QuayPlace) -> Result<Place, Refusal> {
        let phase = match place.phase {
            0 => Phase::Seeking,
            1 => Phase::Delimited,
            2 => Phase::Inside,
            3 => Phase::Held,
            _ => return Err(Refusal::FieldOutside),
        };
        Ok(Place {
            phase,
            wire: WirePlace(place.wire),
            kept: BodyPlace(place.kept),
        })
    }
}

// A function: `Event` is declared in `line` and `QuayEvent` in `crossing`, so no `From` of them can stand here.
pub(crate) fn event_out(event: Option<Event>) -> QuayEvent
    ensures { result ≡ event_out event }
{
    match event {
        None => QuayEvent {
            wire: 0,
            kept: 0,
            kind: 0,
            refusal: 0,
        },
        Some(Event::Frame(wire, kept)) => QuayEvent {
            wire: wire.0,
            kept: kept.0,
            kind: 1,
            refusal: 0,
        },
        Some(Event::Refused(why, wire, kept)) => QuayEvent {
            wire: wire.0,
            kept: kept.0,
            kind: 2,
            refusal: u8::from(why),
        },
    }
}
