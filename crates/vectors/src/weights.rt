// Cases of weights and inputs.
use crate::given::{take_byte, take_reading};
use crate::words::{
    say_bits, say_bytes, say_flag, say_good, say_number, say_reading, say_refusal, say_small,
};
use refusal::Refusal;
use std::io;
use std::io::{Stdin, Stdout};
use terminal_mode::{Mode, mode_of};
use weight::{FourBytes, Reading};

pub(crate) fn say_read(read: Result<Reading, Refusal>, out: Stdout) -> io::Result<()> {
    match read {
        Err(why) => say_refusal(why, out),
        Ok(reading) => {
            say_good(out)?;
            say_reading(reading, out)
        }
    }
}

// The number of a family, W0 W1 W2 CON; a reading.
pub(crate) fn read(input: Stdin, out: Stdout) -> io::Result<()> {
    let family = take_byte(input)?;
    say_read(
        weight::read_bytes(FourBytes {
            w0: take_byte(input)?,
            w1: take_byte(input)?,
            w2: take_byte(input)?,
            con: take_byte(input)?,
            family,
        }),
        out,
    )
}

// A reading; whether its number, its point and bit 6 have values that they may have.
pub(crate) fn in_range(input: Stdin, out: Stdout) -> io::Result<()> {
    say_flag(weight::in_range(take_reading(input)?), out)
}

// A reading; its four bytes and the number of its family.
pub(crate) fn write(input: Stdin, out: Stdout) -> io::Result<()> {
    match weight::to_bytes(take_reading(input)?) {
        Err(why) => say_refusal(why, out),
        Ok(bytes) => {
            say_good(out)?;
            let four = [bytes.w0, bytes.w1, bytes.w2, bytes.con];
            say_bytes(&four, out)?;
            say_small(bytes.family, out)
        }
    }
}

// A float by its bits. A NaN equals nothing, not even itself, and has no bits that can be told.
fn say_float(float: f64, out: Stdout) -> io::Result<()> {
    if float == float {
        say_bits(f64::to_bits(float), out)?;
    }
    Ok(())
}

// A whole number as the float nearest to it. Below 2^53 that float is the number itself, and no other whole number has the same float.
fn say_value(value: Result<i64, Refusal>, out: Stdout) -> io::Result<()> {
    match value {
        Err(why) => say_refusal(why, out),
        Ok(tenths) => {
            say_good(out)?;
            say_float(std::num::nearest_i64_to_f64(tenths), out)
        }
    }
}

// A reading; its value.
pub(crate) fn value(input: Stdin, out: Stdout) -> io::Result<()> {
    say_value(weight::value_of(take_reading(input)?), out)
}

// Two readings; the first less the second.
pub(crate) fn difference(input: Stdin, out: Stdout) -> io::Result<()> {
    let gross = take_reading(input)?;
    let net = take_reading(input)?;
    say_value(weight::gross_less_net(gross, net), out)
}

// A reading; its kilograms.
pub(crate) fn kilograms(input: Stdin, out: Stdout) -> io::Result<()> {
    match kilograms::kilograms_of(take_reading(input)?) {
        Err(why) => say_refusal(why, out),
        Ok(float) => {
            say_good(out)?;
            say_float(float, out)
        }
    }
}

// 0 for a family that has no such bit, 1 for a bit that is clear, 2 for one that is set.
fn say_answer(answer: Option<bool>, out: Stdout) -> io::Result<()> {
    match answer {
        None => say_small(0, out),
        Some(false) => say_small(1, out),
        Some(true) => say_small(2, out),
    }
}

// 0 for a family that has no such bit, 1 for platform 0, 2 for platform 1.
fn say_platform(platform: Option<u8>, out: Stdout) -> io::Result<()> {
    match platform {
        None => say_small(0, out),
        Some(number) => say_number(number as u64 + 1, out),
    }
}

// A reading; net mode, platform, key code, event.
pub(crate) fn mode(input: Stdin, out: Stdout) -> io::Result<()> {
    match mode_of(take_reading(input)?) {
        Err(why) => say_refusal(why, out),
        Ok(
            Mode {
                net,
                platform,
                key,
                event,
            },
        ) => {
            say_good(out)?;
            say_answer(net, out)?;
            say_platform(platform, out)?;
            say_answer(key, out)?;
            say_answer(event, out)
        }
    }
}

// The four bytes of the inputs; how many are on.
pub(crate) fn inputs_on(input: Stdin, out: Stdout) -> io::Result<()> {
    let on = inputs::count_on(
        take_byte(input)?,
        take_byte(input)?,
        take_byte(input)?,
        take_byte(input)?,
    );
    say_number(on as u64, out)
}
