// What an answer is made of: words, each behind a blank. A number is told in decimal, bytes in hex, no bytes as `-`.
use body::Address;
use refusal::Refusal;
use std::io;
use std::io::Stdout;
use weight::Reading;

pub(crate) fn say_number(number: u64, out: Stdout) -> io::Result<()> {
    print!(out; " {number}")
}

pub(crate) fn say_small(number: u8, out: Stdout) -> io::Result<()> {
    say_number(number as u64, out)
}

pub(crate) fn say_flag(flag: bool, out: Stdout) -> io::Result<()> {
    say_number(flag as u64, out)
}

pub(crate) fn say_bytes(bytes: &[u8], out: Stdout) -> io::Result<()> {
    if bytes.is_empty() {
        return print!(out; " -");
    }
    print!(out; " ")?;
    for byte in bytes {
        print!(out; "{byte:02x}")?;
    }
    Ok(())
}

// Sixty-four bits, in hex.
pub(crate) fn say_bits(bits: u64, out: Stdout) -> io::Result<()> {
    print!(out; " {bits:016x}")
}

// The paper's number of a refusal. 0 stands for none.
pub(crate) fn say_refusal(why: Refusal, out: Stdout) -> io::Result<()> {
    say_small(u8::from(why), out)
}

// How a refusal starts in an answer of three kinds: 0 for nothing, 1 for what was heard or read, 2 for a refusal.
pub(crate) fn say_refused(why: Refusal, out: Stdout) -> io::Result<()> {
    say_small(2, out)?;
    say_refusal(why, out)
}

pub(crate) fn say_good(out: Stdout) -> io::Result<()> {
    say_number(0, out)
}

pub(crate) fn say_verdict(verdict: Result<(), Refusal>, out: Stdout) -> io::Result<()> {
    match verdict {
        Ok(()) => say_good(out),
        Err(why) => say_refusal(why, out),
    }
}

// What a write answered, its length or the refusal and no length, and its room as it is afterwards.
pub(crate) fn say_written(
    written: Result<usize, Refusal>,
    room: &[u8],
    out: Stdout,
) -> io::Result<()> {
    match written {
        Err(why) => {
            say_refusal(why, out)?;
            say_number(0, out)?;
        }
        Ok(length) => {
            say_good(out)?;
            say_number(length as u64, out)?;
        }
    }
    say_bytes(room, out)
}

// A kind and a number. The caller says which number belongs to which kind.
pub(crate) fn say_tagged(tag: u8, number: u64, out: Stdout) -> io::Result<()> {
    say_small(tag, out)?;
    say_number(number, out)
}

// 0 for a short address and 1 for a serial, and its number.
pub(crate) fn say_address(address: Address, out: Stdout) -> io::Result<()> {
    match address {
        Address::Short(byte) => say_tagged(0, byte as u64, out),
        Address::Serial(serial) => say_tagged(1, serial as u64, out),
    }
}

pub(crate) fn say_reading(reading: Reading, out: Stdout) -> io::Result<()> {
    say_flag(reading.minus, out)?;
    say_number(reading.number as u64, out)?;
    say_small(reading.point, out)?;
    say_flag(reading.bit6, out)?;
    say_flag(reading.bit5, out)?;
    say_flag(reading.settled, out)?;
    say_flag(reading.overload, out)?;
    say_small(u8::from(reading.family), out)
}
