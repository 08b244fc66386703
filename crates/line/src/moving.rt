// How one byte moves a place on, in each of the four states.
ghost use Rattle.std.specs.Prelude.{◌≤◌};

use crate::places::{BodyPlace, Event, Phase, Place, WirePlace};
use body::{LONGEST_BODY, judge};
use refusal::Refusal;

const DELIMITER: u8 = 0xFF;

const INSERTED: u8 = 0xFE;

// A place to go on from: a body has at most 255 bytes, and no more are kept.
#[derive(Clone, Copy)]
pub struct SoundPlace {
    pub place: Place,
    ghost few: { place.kept.0 ≤ 255 },
}

// A place and the event that led there.
#[derive(Clone, Copy)]
pub struct Moved {
    pub place: SoundPlace,
    pub event: Option<Event>,
}

impl Place {
    ghost use Rattle.std.specs.Prelude.{◌≡◌};
    ghost use Rattle.line.specs.Steps.{sound_place};

    // "A state handed in with more than 255 kept bytes is treated as fresh, wire count 0."
    pub(crate) fn sound(self) -> SoundPlace
        ensures { result.place ≡ sound_place self }
    {
        if LONGEST_BODY < self.kept.0 {
            return SoundPlace {
                place: Place::fresh(),
            };
        }
        SoundPlace { place: self }
    }
}

impl SoundPlace {
    ghost use Rattle.std.specs.Prelude.{◌≡◌, take};
    ghost use Rattle.line.specs.Listener.{keep, ended, hear};
    ghost use Rattle.body.specs.Body.{judged};
    ghost use Rattle.line.specs.Readers.{listening, event_of};
    ghost use Rattle.line.specs.Steps.{Keeps, MovesTo, counted, none_kept, in_phase};

    // The place behind one byte more.
    #[tactic(auto, unfolding(crate::specs::Listener::tick))]
    fn counted(self) -> SoundPlace
        ensures { result.place ≡ counted self.place }
    {
        SoundPlace {
            place: Place {
                wire: WirePlace(self.place.wire.0.wrapping_add(1)),
                ..self.place
            },
        }
    }

    // No body is open, or none any more.
    fn none_kept(self) -> SoundPlace
        ensures { result.place ≡ none_kept self.place }
    {
        SoundPlace {
            place: Place {
                kept: BodyPlace(0),
                ..self.place
            },
        }
    }

    // A move that gives no event.
    fn to(self, phase: Phase) -> Moved
        ensures { MovesTo (in_phase phase self.place) None result }
    {
        Moved {
            place: SoundPlace {
                place: Place {
                    phase,
                    ..self.place
                },
            },
            event: None,
        }
    }

    // A refusal inside a body. It leads back to Seeking.
    fn refuse(self, why: Refusal) -> Moved
        ensures { MovesTo (in_phase Phase.Seeking (none_kept self.place)) (Some (Event.Refused why self.place.wire self.place.kept)) result }
    {
        Moved {
            event: Some(Event::Refused(why, self.place.wire, self.place.kept)),
            ..self.none_kept().to(Phase::Seeking)
        }
    }

    // A byte to keep. The 256th is refusal 2.
    fn keep(self, byte: u8, body: &mut [u8; 255]) -> Moved
        ensures { Keeps (keep (take self.place.kept.0 body.old) byte self.place.wire.0) body.old result body.new }
    {
        let kept = self.place.kept.0;
        if LONGEST_BODY <= kept {
            return self.refuse(Refusal::BodyLong);
        }
        body[kept] = byte;
        let more = Place {
            kept: BodyPlace(kept + 1),
            ..self.place
        };
        SoundPlace { place: more }.to(Phase::Inside)
    }

    // A body has ended: the frame, or 1, 4, 5.
    #[tactic(auto, using(body::proofs::Rebuilding::lent_is), unfolding(crate::specs::Listener::ended))]
    fn ended(self, body: &[u8; 255]) -> Event
        ensures { Some result ≡ event_of (ended (judged (take self.place.kept.0 body.now)) (take self.place.kept.0 body.now) self.place.wire.0) }
    {
        match judge(&body[..self.place.kept.0]) {
            Ok(()) => Event::Frame(self.place.wire, self.place.kept),
            Err(why) => Event::Refused(why, self.place.wire, self.place.kept),
        }
    }

    // Takes one byte. The place moves on, and so do the kept bytes beside it.
    #[tactic(auto, unfolding(crate::specs::Listener::hear, crate::specs::Listener::hear_in, crate::specs::Readers::listening))]
    pub(crate) fn step(self, byte: u8, body: &mut [u8; 255]) -> Moved
        ensures { Keeps (hear (listening self.place body.old) byte) body.old result body.new }
    {
        let here = self.counted();
        let none = here.none_kept();
        match (self.place.phase, byte) {
            (Phase::Seeking, DELIMITER) => none.to(Phase::Delimited),
            (Phase::Seeking, _) => none.to(Phase::Seeking),
            (Phase::Delimited, DELIMITER) => none.to(Phase::Delimited),
            (Phase::Delimited, INSERTED) => none.to(Phase::Seeking),
            (Phase::Delimited, _) => none.keep(byte, body),
            (Phase::Inside, DELIMITER) => here.to(Phase::Held),
            (Phase::Inside, _) => here.keep(byte, body),
            (Phase::Held, INSERTED) => here.keep(DELIMITER, body),
            (Phase::Held, DELIMITER) => Moved {
                event: Some(here.ended(body)),
                ..none.to(Phase::Delimited)
            },
            (Phase::Held, _) => here.refuse(Refusal::HeldBroken),
        }
    }
}
