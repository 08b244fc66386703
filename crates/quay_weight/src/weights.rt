// Weights. Four bytes go in, as the wire and the log have them, and the number of their family. A reading, its value, a difference or kilograms come out.
ghost use Rattle.std.specs.Prelude.{◌≡◌};
ghost use Rattle.weight.specs.Bytes.{read_of};
ghost use Rattle.quay_weight.specs.Weights.{reading_out, value_out, value_read, difference_read, kilograms_out, kilograms_read};

use kilograms::kilograms_of;
use refusal::Refusal;
use weight::{FourBytes, Reading, gross_less_net, read_bytes, value_of};

// What a terminal shows. The marks are 0 or 1. If refused, the number, the marks and the family are all ones and the point is 0: number and
// point together are far above any weight. Flags and numbers, since C has neither `Result` nor our enums; the layouts here are its interface.
#[repr(C)]
#[derive(Clone, Copy, Debug, PartialEq, Eq)]
pub struct QuayReading {
    pub number: u32, // 0 to 999,999; no weight where `overload` is 1: ask `quay_value`, which refuses by 24
    pub point: u8, // digits after the point
    pub minus: u8,
    pub bit6: u8,
    pub bit5: u8,
    pub settled: u8,
    pub overload: u8,
    pub family: u8, // 0 plain, 1 to 3 for 000 to 002
    pub refusal: u8,
}

// A signed whole number of tenths of a milligram. If refused, also for an overload, it is the lowest number there is. No weight is so low.
#[repr(C)]
#[derive(Clone, Copy, Debug, PartialEq, Eq)]
pub struct QuayValue {
    pub value: i64,
    pub refusal: u8,
}

// A weight in kilograms. If refused, also for an overload, it is not a number.
#[repr(C)]
#[derive(Clone, Copy, Debug, PartialEq)]
pub struct QuayKilograms {
    pub kilograms: f64,
    pub refusal: u8,
}

impl From<Result<Reading, Refusal>> for QuayReading {
    ghost from_gives = { λ read answered. answered ≡ reading_out read };

    fn from(read: Result<Reading, Refusal>) -> QuayReading {
        match read {
            Ok(reading) => QuayReading {
                number: reading.number,
                point: reading.point,
                minus: u8::from(reading.minus),
                bit6: u8::from(reading.bit6),
                bit5: u8::from(reading.bit5),
                settled: u8::from(reading.settled),
                overload: u8::from(reading.overload),
                family: u8::from(reading.family),
                refusal: 0,
            },
            Err(why) => QuayReading {
                number: u32::MAX,
                point: 0,
                minus: 255,
                bit6: 255,
                bit5: 255,
                settled: 255,
                overload: 255,
                family: 255,
                refusal: u8::from(why),
            },
        }
    }
}

impl From<Result<i64, Refusal>> for QuayValue {
    ghost from_gives = { λ value answered. answered ≡ value_out value };

    fn from(value: Result<i64, Refusal>) -> QuayValue {
        match value {
            Ok(tenths) => QuayValue {
                value: tenths,
                refusal: 0,
            },
            Err(why) => QuayValue {
                value: i64::MIN,
                refusal: u8::from(why),
            },
        }
    }
}

impl From<Result<f64, Refusal>> for QuayKilograms {
    ghost from_gives = { λ weighed answered. answered ≡ kilograms_out weighed };

    #[tactic(auto, using(crate::proofs::NoNumber::no_number))]
    fn from(weighed: Result<f64, Refusal>) -> QuayKilograms {
        match weighed {
            Ok(kilograms) => QuayKilograms {
                kilograms,
                refusal: 0,
            },
            Err(why) => QuayKilograms {
                kilograms: f64::NAN,
                refusal: u8::from(why),
            },
        }
    }
}

fn value_in(weight: FourBytes) -> Result<i64, Refusal>
    ensures { result ≡ value_read (read_of weight) }
{
    let reading = read_bytes(weight)?;
    value_of(reading)
}

fn difference_in(gross: FourBytes, net: FourBytes) -> Result<i64, Refusal>
    ensures { result ≡ difference_read (read_of gross) (read_of net) }
{
    let gross = read_bytes(gross)?;
    let net = read_bytes(net)?;
    gross_less_net(gross, net)
}

fn kilograms_in(weight: FourBytes) -> Result<f64, Refusal>
    ensures { result ≡ kilograms_read (read_of weight) }
{
    let reading = read_bytes(weight)?;
    kilograms_of(reading)
}

// The reading of four bytes, or 8, also for a family that does not exist. An overloaded one is read: its bytes come back, and its value is refused.
#[unsafe(no_mangle)]
pub extern "C" fn quay_read_weight(weight: FourBytes) -> QuayReading
    ensures { result ≡ reading_out (read_of weight) }
{
    QuayReading::from(read_bytes(weight))
}

// The value of a weight in tenths of a milligram, or 8, and then 24 if it is overloaded.
#[unsafe(no_mangle)]
pub extern "C" fn quay_value(weight: FourBytes) -> QuayValue
    ensures { result ≡ value_out (value_read (read_of weight)) }
{
    QuayValue::from(value_in(weight))
}

// Gross less net in tenths of a milligram, or 8 of either weight, and then 24 of either.
#[unsafe(no_mangle)]
pub extern "C" fn quay_difference(gross: FourBytes, net: FourBytes) -> QuayValue
    ensures { result ≡ value_out (difference_read (read_of gross) (read_of net)) }
{
    QuayValue::from(difference_in(gross, net))
}

// A weight in kilograms as a 64-bit float, or 8, and then 24 if it is overloaded.
#[unsafe(no_mangle)]
pub extern "C" fn quay_kilograms(weight: FourBytes) -> QuayKilograms
    ensures { result ≡ kilograms_out (kilograms_read (read_of weight)) }
{
    QuayKilograms::from(kilograms_in(weight))
}
