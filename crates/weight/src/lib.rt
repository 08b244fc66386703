// A weight reading and its four bytes, its value in tenths of a milligram, and gross less net (01, "Weight").

#![tactic(auto)]

ghost use Rattle.std.specs.Prelude.{◌≡◌, ◌&&◌, cond, ◌*◌, ◌^◌, ◌-◌, ◌≤◌, ◌<◌, IfOk};
ghost use Rattle.refusal.specs.declared.Refusal.TheVariants.{FieldOutside};
ghost use Rattle.weight.specs.Digits.{decimal, all_decimal, two_digits, pair_of};
ghost use Rattle.weight.specs.Families.{terminal, allowed};
ghost use Rattle.weight.specs.Status.{on_at, status_of};
ghost use Rattle.weight.specs.Bytes.{in_range, read_as, read_of, packed_of};
ghost use Rattle.weight.specs.Tenths.{signed, value_of, difference_of};

use refusal::Refusal;

mod families;

pub use families::Family;

// What a terminal shows: the digits as one number, where the point stands in them, and the marks of the status byte; and whose it is.
#[derive(Clone, Copy, Debug, PartialEq, Eq)]
pub struct Reading {
    pub minus: bool, // the sign bit, also of a zero
    pub number: u32, // 0 to 999,999
    pub point: u8, // digits after the point, 0 to 7
    pub bit6: bool, // what it means, the family says
    pub bit5: bool, // what it means, the family says
    pub settled: bool,
    pub overload: bool, // if it is set the digits are no weight: `value_of` refuses by 24
    pub family: Family, // of the terminal that shows it
}

// The four bytes of a weight, as the wire and the log have them and as they cross to another language: W0 W1 W2 CON. Beside them stands the number
// of the family by which they are read, as byte 17 of a record has it.
#[repr(C)]
#[derive(Clone, Copy, Debug, PartialEq, Eq)]
pub struct FourBytes {
    pub w0: u8,
    pub w1: u8,
    pub w2: u8,
    pub con: u8,
    pub family: u8,
}

// The places of the status byte: the weight of each mark, and the values of the point.
const MINUS: u8 = 128;

const BIT6: u8 = 64;

const BIT5: u8 = 32;

const SETTLED: u8 = 16;

const OVERLOAD: u8 = 8;

const POINTS: u8 = 8;

const LARGEST_NUMBER: u32 = 999_999;

const LARGEST_POINT: u8 = 7;

fn is_decimal(byte: u8) -> bool
    ensures { result ≡ decimal byte }
{
    byte / 16 <= 9 && byte % 16 <= 9
}

fn are_decimal(w0: u8, w1: u8, w2: u8) -> bool
    ensures { result ≡ all_decimal w0 w1 w2 }
{
    is_decimal(w0) && is_decimal(w1) && is_decimal(w2)
}

// The two digits of a packed byte, high half first.
fn two_digits(byte: u8) -> u32
    ensures { result ≡ two_digits byte }
{
    u32::from(byte / 16) * 10 + u32::from(byte % 16)
}

// The last two digits of a number as a packed byte.
fn pair(number: u32) -> u8
    ensures { result ≡ pair_of number }
{
    (number / 10 % 10) as u8 * 16 + (number % 10) as u8
}

// A mark's place in the status byte, where it is set.
fn weigh(mark: bool, place: u8) -> u8
    ensures value { result ≡ on_at mark place }
    ensures small { result ≤ place }
{
    if mark { place } else { 0 }
}

// A bit that the family reserves is 0.
fn is_allowed(family: Family, bit6: bool) -> bool
    ensures { result ≡ allowed (terminal family).sixth bit6 }
{
    match family {
        Family::Plain => true,
        Family::Of000 => true,
        Family::Of001 => true,
        Family::Of002 => !bit6,
    }
}

// Whether the number, the point and bit 6 have values that a reading may have. This is asked wherever a reading is used.
#[tactic(auto, unfolding(crate::specs::Bytes::in_range))]
pub fn in_range(reading: Reading) -> bool
    ensures { result ≡ in_range reading }
{
    reading.number <= LARGEST_NUMBER
        && reading.point <= LARGEST_POINT
        && is_allowed(reading.family, reading.bit6)
}

// The status byte: the places of the marks that are set, and the point below them.
fn status(reading: Reading) -> u8
    requires { reading.point ≤ 7 }
    ensures { result ≡ status_of reading }
{
    let sign = weigh(reading.minus, MINUS);
    let by_family = weigh(reading.bit6, BIT6) + weigh(reading.bit5, BIT5);
    let state = weigh(reading.settled, SETTLED) + weigh(reading.overload, OVERLOAD);
    sign + by_family + state + reading.point
}

// Tenths of a milligram in the last digit, for each point. It stays a table: by the library's `pow`, filling the hour table took 1.39 times what C
// takes, and 1.3 is the bar (docs/PERFORMANCE.md).
const STEPS: [u64; 8] = [10_000_000, 1_000_000, 100_000, 10_000, 1_000, 100, 10, 1];

#[tactic(auto, using(crate::proofs::Steps::step_at))]
fn step(point: u8) -> u64
    requires { point ≤ 7 }
    ensures { result ≡ 10 ^ (7 - point) }
{
    STEPS[usize::from(point)]
}

// The digits in tenths of a milligram, without the sign, or 8. The largest is 9,999,990,000,000. The number is widened before it is multiplied,
// because the product passes 32 bits.
#[tactic(auto, using(crate::proofs::Sizes::size_le, crate::proofs::Sizes::legal_number, crate::proofs::Sizes::legal_point))]
fn size_of(reading: Reading) -> Result<u64, Refusal>
    ensures value { result ≡ cond (in_range reading) (Ok (reading.number * 10 ^ (7 - reading.point))) (Err FieldOutside) }
    ensures small { IfOk result (λ size. size ≤ 9999990000000) }
{
    if !in_range(reading) {
        return Err(Refusal::FieldOutside);
    }
    Ok(u64::from(reading.number) * step(reading.point))
}

// A size with its sign; minus zero is 0.
fn with_sign(minus: bool, size: u64) -> i64
    requires { size < 2 ^ 63 }
    ensures { result ≡ signed minus size }
{
    let tenths = size.cast_signed();
    if minus { -tenths } else { tenths }
}

// Reads four bytes of a terminal of a family. A mark is `con / PLACE % 2`, the digit that the definition reads: `con & PLACE` was tried, and leaves
// open what a lemma of masks would have to say.
#[tactic(auto, unfolding(crate::specs::Bytes::read_as))]
fn read_as(family: Family, bytes: FourBytes) -> Result<Reading, Refusal>
    ensures { result ≡ read_as family bytes }
{
    let con = bytes.con;
    let bit6 = con / BIT6 % 2 == 1;
    if !(are_decimal(bytes.w0, bytes.w1, bytes.w2) && is_allowed(family, bit6)) {
        return Err(Refusal::FieldOutside);
    }
    let number = two_digits(bytes.w2) * 10000 + two_digits(bytes.w1) * 100 + two_digits(bytes.w0);
    Ok(Reading {
        minus: con / MINUS % 2 == 1,
        number,
        point: con % POINTS,
        bit6,
        bit5: con / BIT5 % 2 == 1,
        settled: con / SETTLED % 2 == 1,
        overload: con / OVERLOAD % 2 == 1,
        family,
    })
}

// Reads four bytes by the family whose number stands beside them. A number that names no family is refused by 8.
#[tactic(auto, unfolding(crate::specs::Bytes::read_of))]
pub fn read_bytes(bytes: FourBytes) -> Result<Reading, Refusal>
    ensures { result ≡ read_of bytes }
{
    let family = Family::try_from(bytes.family)?;
    read_as(family, bytes)
}

// A reading to its four bytes.
#[tactic(auto, unfolding(crate::specs::Bytes::packed_of), using(crate::proofs::Sizes::legal_point))]
pub fn to_bytes(reading: Reading) -> Result<FourBytes, Refusal>
    ensures { result ≡ packed_of reading }
{
    if !in_range(reading) {
        return Err(Refusal::FieldOutside);
    }
    let number = reading.number;
    Ok(FourBytes {
        w0: pair(number),
        w1: pair(number / 100),
        w2: pair(number / 10000),
        con: status(reading),
        family: u8::from(reading.family),
    })
}

// The value of a reading, or 8, and then 24: an overloaded bridge has no weight (02, request 7). Every user of a reading's value goes
// through here.
#[tactic(auto, unfolding(crate::specs::Tenths::value_of))]
pub fn value_of(reading: Reading) -> Result<i64, Refusal>
    ensures { result ≡ value_of reading }
{
    let size = size_of(reading)?;
    if reading.overload {
        return Err(Refusal::Overloaded);
    }
    Ok(with_sign(reading.minus, size))
}

// Gross less net, which may be negative; or 8 of either reading, and then 24 of either. So 8 of the net comes before 24 of the gross. A reading
// does not know whether it is gross or net, so this is not asked.
#[tactic(auto, unfolding(crate::specs::Tenths::difference_of), using(crate::proofs::Values::difference_fits, crate::proofs::Values::difference_made))]
pub fn gross_less_net(gross: Reading, net: Reading) -> Result<i64, Refusal>
    ensures { result ≡ difference_of gross net }
{
    if !(in_range(gross) && in_range(net)) {
        return Err(Refusal::FieldOutside);
    }
    let gross_tenths = value_of(gross)?;
    let net_tenths = value_of(net)?;
    Ok(gross_tenths - net_tenths)
}
