// The two counts that every event carries, and the small part of a reader's state, which one byte moves on.
ghost use Rattle.std.specs.Prelude.{◌≡◌};
ghost use Rattle.line.specs.Readers.{fresh_place};

use refusal::Refusal;

// Bytes taken since the reader started, modulo 2^64, up to and including the byte that gave the event.
#[derive(Clone, Copy, Debug, PartialEq, Eq)]
pub struct WirePlace(pub u64);

// Body bytes kept at that moment. Nothing converts one of the two to the other.
#[derive(Clone, Copy, Debug, PartialEq, Eq)]
pub struct BodyPlace(pub usize);

// The four states of listening.
#[derive(Clone, Copy, Debug, PartialEq, Eq)]
pub enum Phase {
    Seeking,
    Delimited,
    Inside,
    Held,
}

// What a byte may give; mostly it gives none. A frame or a refusal, each with its two places.
#[derive(Clone, Copy, Debug, PartialEq, Eq)]
pub enum Event {
    Frame(WirePlace, BodyPlace),
    Refused(Refusal, WirePlace, BodyPlace),
}

// Where a reader stands. The bytes it keeps are held beside it.
#[derive(Clone, Copy, Debug, PartialEq, Eq)]
pub struct Place {
    pub phase: Phase,
    pub wire: WirePlace,
    pub kept: BodyPlace,
}

impl Place {
    pub(crate) fn fresh() -> Place
        ensures { result ≡ fresh_place }
    {
        Place {
            phase: Phase::Seeking,
            wire: WirePlace(0),
            kept: BodyPlace(0),
        }
    }
}
