// The numbered refusals of the rules paper ("What the answers mean") and of the requests of 02. Each is the error of whoever refuses: a judge of the
// layers above answers `Ok(())` or the refusal.

#![tactic(auto)]

ghost use Rattle.std.specs.Prelude.{◌≡◌, ok_or};
ghost use Rattle.refusal.specs.Numbers.{number_of, named_of, line_status};

// One case for each number of the list, named by its meaning: 1 to 11 of 01, from 20 on of 02.
#[derive(Clone, Copy, Debug, PartialEq, Eq)]
pub enum Refusal {
    BodyShort, // 1: body ended with under 3 bytes, or first byte 00 and under 6
    BodyLong, // 2: 256th body byte; body would pass 255
    HeldBroken, // 3: Held, then neither FE nor FF
    CheckWrong, // 4: check not 0
    AddressIllegal, // 5: short address outside its range, or serial too large
    CodeUnknown, // 6: code not in the table for that role
    LengthWrong, // 7: data length wrong for the code
    FieldOutside, // 8: a field outside its values
    RoomShort, // 9: lent room shorter than needed
    LogLeftOver, // 10: log bytes left over, 1 to 19
    RecordBroken, // 11: log record breaks a rule
    HeaderWrong, // 20: header of a parcel scale's message wrong, or under 3 bytes
    BytesMissing, // 21: fewer bytes than length and check of such a message need
    ParcelCheckWrong, // 22: its check wrong
    CountFull, // 23: a count of the weekday and hour table would pass 65,535
    Overloaded, // 24: the reading is marked overload, so it has no value
    LengthOutside, // 25: a body that is empty or over 31 bytes, in which no bad bit is looked for
    CheckRight, // 26: a body of 1 to 31 bytes whose check is right already, in which no bad bit is looked for
    SumBeyond, // 31: a lent cell's sum, sign aside, is beyond its count times 9,999,990,000,000
}

// A number that no refusal has.
#[derive(Clone, Copy, Debug, PartialEq, Eq)]
pub struct NoSuchRefusal(pub u8);

// The paper's number of a refusal. A match and no `refusal as u8`: two cases with one number shall fail the proof, and would not get as far.
impl From<Refusal> for u8 {
    ghost from_gives = { λ refusal number. number ≡ number_of refusal };

    fn from(refusal: Refusal) -> u8 {
        match refusal {
            Refusal::BodyShort => 1,
            Refusal::BodyLong => 2,
            Refusal::HeldBroken => 3,
            Refusal::CheckWrong => 4,
            Refusal::AddressIllegal => 5,
            Refusal::CodeUnknown => 6,
            Refusal::LengthWrong => 7,
            Refusal::FieldOutside => 8,
            Refusal::RoomShort => 9,
            Refusal::LogLeftOver => 10,
            Refusal::RecordBroken => 11,
            Refusal::HeaderWrong => 20,
            Refusal::BytesMissing => 21,
            Refusal::ParcelCheckWrong => 22,
            Refusal::CountFull => 23,
            Refusal::Overloaded => 24,
            Refusal::LengthOutside => 25,
            Refusal::CheckRight => 26,
            Refusal::SumBeyond => 31,
        }
    }
}

// Whether a line can meet the refusal with this number. The other refusals are of writing, of a log, of the parcel scales, of a table, of a value and of a bad bit that is looked for.
pub fn line_status(number: u8) -> bool
    ensures { result ≡ line_status number }
{
    (1..=8).contains(&number)
}

// The refusal with a number that a caller in another language or a log's record gives.
impl TryFrom<u8> for Refusal {
    type Error = NoSuchRefusal;

    ghost try_from_gives = { λ number result. result ≡ ok_or (named_of number) (record { 0 = number }) };

    #[tactic(auto, unfolding(crate::specs::Numbers::named_of, crate::specs::Numbers::named_in))]
    fn try_from(number: u8) -> Result<Refusal, NoSuchRefusal> {
        match number {
            1 => Ok(Refusal::BodyShort),
            2 => Ok(Refusal::BodyLong),
            3 => Ok(Refusal::HeldBroken),
            4 => Ok(Refusal::CheckWrong),
            5 => Ok(Refusal::AddressIllegal),
            6 => Ok(Refusal::CodeUnknown),
            7 => Ok(Refusal::LengthWrong),
            8 => Ok(Refusal::FieldOutside),
            9 => Ok(Refusal::RoomShort),
            10 => Ok(Refusal::LogLeftOver),
            11 => Ok(Refusal::RecordBroken),
            20 => Ok(Refusal::HeaderWrong),
            21 => Ok(Refusal::BytesMissing),
            22 => Ok(Refusal::ParcelCheckWrong),
            23 => Ok(Refusal::CountFull),
            24 => Ok(Refusal::Overloaded),
            25 => Ok(Refusal::LengthOutside),
            26 => Ok(Refusal::CheckRight),
            31 => Ok(Refusal::SumBeyond),
            _ => Err(NoSuchRefusal(number)),
        }
    }
}
