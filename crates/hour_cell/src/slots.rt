// The weekday and the hour of a record's time. Time 0 is a Monday midnight. A caller with Unix time, which starts on a Thursday, subtracts 345,600;
// the time zone is the caller's.
ghost use Rattle.std.specs.Prelude.{◌≡◌};
ghost use Rattle.hour_cell.specs.Slots.{slot_of};

const HOUR: u64 = 3_600;

const DAY: u64 = 86_400;

// A cell's place in the table.
#[derive(Clone, Copy, Debug, PartialEq, Eq)]
pub struct Slot {
    pub weekday: usize, // 0 Monday to 6 Sunday
    pub hour: usize, // 0 to 23
}

// The slot of a time in seconds.
#[tactic(auto, unfolding(crate::specs::Slots::slot_of))]
pub fn slot_of(time: u64) -> Slot
    ensures { result ≡ slot_of time }
{
    Slot {
        weekday: (time / DAY % 7) as usize,
        hour: (time / HOUR % 24) as usize,
    }
}
