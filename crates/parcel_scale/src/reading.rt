// Reading lent bytes as a message of the parcel scales: 20, 21, 22, and then 6, 7, 8.
ghost use Rattle.std.specs.Prelude.{◌≡◌, cond, eqb, length, take};
ghost use Rattle.low_first.specs.LowFirst.{low_first};
ghost use Rattle.refusal.specs.declared.Refusal.TheVariants.{LengthWrong};
ghost use Rattle.parcel_scale.specs.Layouts.{row_of};
ghost use Rattle.parcel_scale.specs.Reading.{read_code, read_body, read_parcel};

use crate::parcels::{Parcel, ParcelWeight};
use crate::value::marks_legal;
use low_first::{half, signed, word};
use parcel_check::check_of;
use refusal::Refusal;

// The header, the two bytes of the length, and the two of the check.
const AROUND_BODY: usize = 7;

// A message without data. 7 if there are any. How many bytes were used goes along with the data, because the definitions give it to each row.
fn plain(parcel: Parcel, data: &[u8], used: usize) -> Result<(Parcel, usize), Refusal>
    ensures { result ≡ cond (eqb (length «data».now) 0) (Ok (record { 0 = parcel; 1 = used })) (Err LengthWrong) }
{
    if data.is_empty() {
        Ok((parcel, used))
    } else {
        Err(Refusal::LengthWrong)
    }
}

// The one field of four bytes behind a code, the tare of A3 or the serial of 50. 7 for any other length.
fn one_word(data: &[u8]) -> Result<u32, Refusal>
    ensures { result ≡ cond (eqb (length «data».now) 4) (Ok (low_first (take 4 «data».now))) (Err LengthWrong) }
{
    let [first, second, third, fourth] = data else {
        return Err(Refusal::LengthWrong);
    };
    Ok(word(*first, *second, *third, *fourth))
}

// 10: the weight.
#[tactic(auto, using(crate::proofs::Rows::weight_row, crate::proofs::Rows::weight_row_outside, crate::proofs::Rows::weight_row_long))]
fn weight(data: &[u8], used: usize) -> Result<(Parcel, usize), Refusal>
    ensures { result ≡ read_code used (row_of 0x10) «data».now }
{
    let [first, second, third, fourth, division, stable] = data else {
        return Err(Refusal::LengthWrong);
    };
    let told = ParcelWeight {
        count: signed(word(*first, *second, *third, *fourth)),
        division: *division,
        stable: *stable,
    };
    if !marks_legal(told) {
        return Err(Refusal::FieldOutside);
    }
    Ok((Parcel::AckWeight(told), used))
}

// What stands behind a code: 6, 7, 8.
#[tactic(auto, unfolding(crate::specs::Reading::read_code, crate::specs::Reading::read_row, crate::specs::Layouts::row_of, crate::specs::Layouts::row_in, crate::specs::Layouts::widths, crate::specs::Layouts::numbers_in, crate::specs::Layouts::in_values))]
fn read_code(code: u8, data: &[u8], used: usize) -> Result<(Parcel, usize), Refusal>
    ensures { result ≡ read_code used (row_of code) «data».now }
{
    match code {
        0xA0 => plain(Parcel::GetWeight, data, used),
        0xA3 => Ok((Parcel::SetTare(signed(one_word(data)?)), used)),
        0x90 => plain(Parcel::GetDeviceId, data, used),
        0x10 => weight(data, used),
        0x12 => plain(Parcel::AckCommand, data, used),
        0x50 => Ok((Parcel::AckDeviceId(one_word(data)?), used)),
        0xF0 => plain(Parcel::Nack, data, used),
        _ => Err(Refusal::CodeUnknown),
    }
}

// A body whose check is right: 6, also if it is empty, 7, 8.
#[tactic(auto, unfolding(crate::specs::Reading::read_body))]
fn read_body(body: &[u8], used: usize) -> Result<(Parcel, usize), Refusal>
    ensures { result ≡ read_body used body.now }
{
    let [code, data @ ..] = body else {
        return Err(Refusal::CodeUnknown);
    };
    read_code(*code, data, used)
}

// Lent bytes read as a message. Judged 20, 21, 22, 6, 7, 8. Bytes behind the check are not looked at.
#[tactic(auto, unfolding(crate::specs::Reading::read_parcel, crate::specs::Reading::judged_frame, crate::specs::Frame::headed, crate::specs::Frame::length_in, crate::specs::Frame::needs, crate::specs::Frame::body_in, crate::specs::Frame::check_in))]
pub fn read(bytes: &[u8]) -> Result<(Parcel, usize), Refusal>
    ensures { result ≡ read_parcel bytes.now }
{
    let [0xF8, 0x55, 0xCE, behind_header @ ..] = bytes else {
        return Err(Refusal::HeaderWrong);
    };
    let [low, high, behind_length @ ..] = behind_header else {
        return Err(Refusal::BytesMissing);
    };
    let length = usize::from(half(*low, *high));
    let Some((body, behind_body)) = behind_length.split_at_checked(length) else {
        return Err(Refusal::BytesMissing);
    };
    let [low, high, ..] = behind_body else {
        return Err(Refusal::BytesMissing);
    };
    if check_of(body) != half(*low, *high) {
        return Err(Refusal::ParcelCheckWrong);
    }
    read_body(body, AROUND_BODY + length)
}
