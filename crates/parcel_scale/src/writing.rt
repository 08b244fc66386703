// Writing a message of the parcel scales into lent room: 6, 8, 9. A message is one of the seven, so that nothing meets 6.
ghost use Rattle.std.specs.Prelude.{◌+◌, ◌≤◌, [], ◌∷◌, length};
ghost use Rattle.low_first.specs.LowFirst.{low_bytes};
ghost use Rattle.room.specs.Laying.{Laid};
ghost use Rattle.room.specs.Writing.{Leaves, written};
ghost use Rattle.parcel_scale.specs.declared.parcels.Parcel.TheVariants.{AckWeight};
ghost use Rattle.parcel_scale.specs.Frame.{framed};
ghost use Rattle.parcel_scale.specs.Writing.{written_parcel};

use crate::parcels::{Parcel, ParcelWeight};
use crate::value::marks_legal;
use low_first::word_of;
use parcel_check::check_of;
use refusal::Refusal;
use room::{lay, lay_low};

// The header, the two bytes of the length, and the two of the check.
const AROUND_BODY: usize = 7;

const HEADER: [u8; 3] = [0xF8, 0x55, 0xCE];

// The bytes of a body as they go out, at the front of a room that has place for them. The places between are what each piece answers: pieces are
// laid so in every crate that writes, and what proves here is the law of two pieces (`laid_then`).
fn put(body: &[u8], room: &mut [u8]) -> usize
    requires { length body.now + 7 ≤ length room.old }
    ensures { Laid 0 (framed body.now) room.old result room.new }
{
    let behind_header = lay(&HEADER, room, 0);
    let behind_length = lay_low(body.len() as u64, 2, room, behind_header);
    let behind_body = lay(body, room, behind_length);
    lay_low(u64::from(check_of(body)), 2, room, behind_body)
}

// A body into lent room: 9.
#[tactic(auto, unfolding(room::specs::Writing::written), using(crate::proofs::Frames::framed_length))]
fn write_body(body: &[u8], room: &mut [u8]) -> Result<usize, Refusal>
    ensures { Leaves (written (framed body.now) room.old) result room.new }
{
    if room.len() < AROUND_BODY || room.len() - AROUND_BODY < body.len() {
        return Err(Refusal::RoomShort);
    }
    Ok(put(body, room))
}

// A message without fields.
fn write_plain(code: u8, room: &mut [u8]) -> Result<usize, Refusal>
    ensures { Leaves (written (framed (code ∷ [])) room.old) result room.new }
{
    write_body(&[code], room)
}

// A message with one field of four bytes.
#[tactic(auto, using(crate::proofs::Values::four_low_bytes))]
fn write_word(code: u8, word: u32, room: &mut [u8]) -> Result<usize, Refusal>
    ensures { Leaves (written (framed (code ∷ low_bytes 4 word)) room.old) result room.new }
{
    let [first, second, third, fourth] = word.to_le_bytes();
    write_body(&[code, first, second, third, fourth], room)
}

// A weight: 8, 9.
#[tactic(auto, unfolding(crate::specs::Writing::written_parcel, crate::specs::Writing::judged_parcel, crate::specs::Layouts::row_of, crate::specs::Layouts::row_in), using(crate::proofs::Values::marks_refuse))]
fn write_weight(told: ParcelWeight, room: &mut [u8]) -> Result<usize, Refusal>
    ensures { Leaves (written_parcel (AckWeight told) room.old) result room.new }
{
    if !marks_legal(told) {
        return Err(Refusal::FieldOutside);
    }
    let [first, second, third, fourth] = word_of(told.count).to_le_bytes();
    let body = [
        0x10,
        first,
        second,
        third,
        fourth,
        told.division,
        told.stable,
    ];
    write_body(&body, room)
}

// Writes a message into lent room. Judged 6, 8, 9.
#[tactic(auto, unfolding(crate::specs::Writing::written_parcel, crate::specs::Writing::judged_parcel, crate::specs::Writing::parcel_bytes, crate::specs::Writing::body_of, crate::specs::Writing::legal_fields, crate::specs::Writing::fields_of, crate::specs::Layouts::row_of, crate::specs::Layouts::row_in, crate::specs::Layouts::laid_out, crate::specs::Layouts::in_values, room::specs::Writing::written, low_first::specs::LowFirst::low_bytes))]
pub fn write(parcel: Parcel, room: &mut [u8]) -> Result<usize, Refusal>
    ensures { Leaves (written_parcel parcel room.old) result room.new }
{
    match parcel {
        Parcel::GetWeight => write_plain(0xA0, room),
        Parcel::SetTare(grams) => write_word(0xA3, word_of(grams), room),
        Parcel::GetDeviceId => write_plain(0x90, room),
        Parcel::AckWeight(told) => write_weight(told, room),
        Parcel::AckCommand => write_plain(0x12, room),
        Parcel::AckDeviceId(number) => write_word(0x50, number, room),
        Parcel::Nack => write_plain(0xF0, room),
    }
}
