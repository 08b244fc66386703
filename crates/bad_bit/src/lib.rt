// Which bit of a body went bad (02, request 9). The finding is for the cable crew's sheet. The frame stays refused: nothing here hands out a mended body,
// and no reader, message or log asks this crate.

#![tactic(auto)]

mod powers;

ghost use Rattle.std.specs.Prelude.{◌≡◌, ◌≤◌};
ghost use Rattle.bad_bit.specs.WhichBit.{highest_below, finding};
ghost use Rattle.bad_bit.specs.Table.{powers_kept, is_power};

use check_byte::feed_all;
use powers::POWERS;
use refusal::Refusal;

// How many bits stand behind a bit in its body, inserted FEs taken out: the low bit of the last byte has place 0, the low bit of the byte ahead of it 8.
// Nothing converts it to a count of bytes.
#[derive(Clone, Copy, Debug, PartialEq, Eq)]
pub struct BitPlace(pub usize);

// The longest body in which at most one bit can make it pass; of 32 bytes two can.
pub const LONGEST_ASKED: usize = 31;

// The highest place of `bits` whose power of x is the register. One pass over the table, from the place of the first bit down: a `for` over
// `(0..bits).rev()` was tried, and took half as long again.
fn place_of(register: u8, bits: usize, powers: &[u8; 255]) -> Option<BitPlace>
    requires { (bits ≤ 255) × (powers.now ≡ powers_kept) }
    ensures { result ≡ highest_below bits (is_power register) }
{
    powers[..bits]
        .iter()
        .rposition(|power| *power == register)
        .map(BitPlace)
}

// Which single bit, if turned over, makes a body pass that fails its check. Refused are an empty body and one of over 31 bytes (25), then one that
// passes (26). It says which bit would do, not which went bad: these are one where a single bit of the body was hit, and nothing else.
pub fn find(body: &[u8]) -> Result<Option<BitPlace>, Refusal>
    ensures { result ≡ finding body.now }
{
    if body.is_empty() || LONGEST_ASKED < body.len() {
        return Err(Refusal::LengthOutside);
    }
    let register = feed_all(0, body);
    if register == 0 {
        return Err(Refusal::CheckRight);
    }
    let powers = POWERS;
    Ok(place_of(register, 8 * body.len(), &powers))
}
