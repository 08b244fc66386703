// Lent room: a write answers its own length or a refusal, and bytes are laid into a room one piece after the other. A room belongs to
// the caller. Bytes that are not written stay as they stood. Also the front of bytes lent for reading.

#![tactic(auto)]

ghost use Rattle.std.specs.Prelude.{◌≡◌, [], ◌∷◌, ◌+◌, ◌≤◌, ◌↔◌, IsTrue, length, take};
ghost use Rattle.low_first.specs.LowFirst.{low_bytes};
ghost use Rattle.room.specs.Laying.{Laid};
ghost use Rattle.room.specs.Writing.{Leaves, written};

use refusal::Refusal;

// Lays one byte into a room at a place and answers the place after it. At or past the room's end nothing is laid.
pub fn lay_byte(byte: u8, room: &mut [u8], at: usize) -> usize
    ensures { Laid at (byte ∷ []) room.old result room.new }
{
    lay(&[byte], room, at)
}

// Lays all bytes of a slice into a room from a place on and answers the place after them. If they would pass
// the room's end, nothing is laid.
#[tactic(auto, using(crate::proofs::Over::pieces))]
pub fn lay(source: &[u8], room: &mut [u8], at: usize) -> usize
    ensures { Laid at source.now room.old result room.new }
{
    if !fits(source.len(), room, at) {
        return at;
    }
    let behind = at + source.len();
    room[at..behind].copy_from_slice(source);
    behind
}

// Lays a number's bytes, low byte first, into a room from a place on: as many as are asked, and the number's higher bytes are left out. It
// answers the place behind them. Where they would pass the room's end nothing is laid.
// A loop and no slice of `to_le_bytes`: the promise holds of every count, and past eight bytes zeros are laid.
#[tactic(auto, using(crate::proofs::Over::low_pieces))]
pub fn lay_low(number: u64, count: usize, room: &mut [u8], at: usize) -> usize
    ensures { Laid at (low_bytes count number) room.old result room.new }
{
    if !fits(count, room, at) {
        return at;
    }
    let behind = at + count;
    let mut left = number;
    for place in &mut room[at..behind] {
        *place = (left % 256) as u8;
        left /= 256;
    }
    behind
}

// Whether so many bytes from a place on end inside the room.
fn fits(count: usize, room: &[u8], at: usize) -> bool
    ensures { IsTrue result ↔ at + count ≤ length room.now }
{
    at <= room.len() && count <= room.len() - at
}

// Writes bytes at the front of lent room. Judged 9.
#[tactic(auto, using(crate::proofs::Over::at_front), unfolding(crate::specs::Writing::written))]
pub fn write(bytes: &[u8], room: &mut [u8]) -> Result<usize, Refusal>
    ensures { Leaves (written bytes.now room.old) result room.new }
{
    if room.len() < bytes.len() {
        return Err(Refusal::RoomShort);
    }
    Ok(lay(bytes, room, 0))
}

// The first bytes that were lent, or all of them if fewer are lent.
pub fn front(lent: &[u8], count: usize) -> &[u8]
    ensures { result.now ≡ take count lent.now }
{
    lent.get(..count).unwrap_or(lent)
}
