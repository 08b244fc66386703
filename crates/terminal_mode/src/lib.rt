// What the loadmaster asks of a reading: net mode, which platform, a key code, an event (02, request 4).

#![tactic(auto)]

ghost use Rattle.std.specs.Prelude.{◌≡◌};
ghost use Rattle.terminal_mode.specs.Modes.{mode_by_family, mode_of};

use refusal::Refusal;
use weight::{Family, Reading, in_range};

// What bits 6 and 5 of a reading say, by its family. None: the family has no such bit, and that is no `false`.
#[derive(Clone, Copy, Debug, PartialEq, Eq)]
pub struct Mode {
    pub net: Option<bool>, // was it in net mode
    pub platform: Option<u8>, // which one: the current scale number, 0 or 1
    pub key: Option<bool>, // was a key code entered
    pub event: Option<bool>, // was there an event
}

// Where a family has none of these bits.
const NO_SUCH_BITS: Mode = Mode {
    net: None,
    platform: None,
    key: None,
    event: None,
};

// By family, as the documents have it.
fn mode_by_family(reading: Reading) -> Mode
    ensures { result ≡ mode_by_family reading }
{
    match reading.family {
        Family::Plain => NO_SUCH_BITS,
        Family::Of000 => Mode {
            net: Some(reading.bit5),
            key: Some(reading.bit6),
            ..NO_SUCH_BITS
        },
        Family::Of001 => Mode {
            platform: Some(u8::from(reading.bit5)),
            event: Some(reading.bit6),
            ..NO_SUCH_BITS
        },
        Family::Of002 => Mode {
            net: Some(reading.bit5),
            ..NO_SUCH_BITS
        },
    }
}

// The mode of a reading. Judged 8, as wherever a reading is used.
#[tactic(auto, unfolding(crate::specs::Modes::mode_of))]
pub fn mode_of(reading: Reading) -> Result<Mode, Refusal>
    ensures { result ≡ mode_of reading }
{
    if !in_range(reading) {
        return Err(Refusal::FieldOutside);
    }
    Ok(mode_by_family(reading))
}
