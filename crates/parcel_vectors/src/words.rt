// What an answer is made of: words, each behind a blank. A number is told in decimal, bytes in hex, no bytes as `-`. A signed number is told by its bits.
use parcel_scale::Parcel;
use refusal::Refusal;
use std::io;
use std::io::Stdout;

pub(crate) fn say(number: u64, out: Stdout) -> io::Result<()> {
    print!(out; " {number}")
}

fn say_refusal(why: Refusal, out: Stdout) -> io::Result<()> {
    say(u8::from(why) as u64, out)
}

fn say_bytes(bytes: &[u8], out: Stdout) -> io::Result<()> {
    if bytes.is_empty() {
        return print!(out; " -");
    }
    print!(out; " ")?;
    for byte in bytes {
        print!(out; "{byte:02x}")?;
    }
    Ok(())
}

// A message as its number among the seven and its fields.
fn say_parcel(parcel: Parcel, out: Stdout) -> io::Result<()> {
    match parcel {
        Parcel::GetWeight => print!(out; " 0"),
        Parcel::SetTare(grams) => {
            let word = grams.cast_unsigned();
            print!(out; " 1 {word}")
        }
        Parcel::GetDeviceId => print!(out; " 2"),
        Parcel::AckWeight(told) => {
            let count = told.count.cast_unsigned();
            let division = told.division;
            let stable = told.stable;
            print!(out; " 3 {count} {division} {stable}")
        }
        Parcel::AckCommand => print!(out; " 4"),
        Parcel::AckDeviceId(serial) => print!(out; " 5 {serial}"),
        Parcel::Nack => print!(out; " 6"),
    }
}

pub(crate) fn say_parcel_read(
    read: Result<(Parcel, usize), Refusal>,
    out: Stdout,
) -> io::Result<()> {
    match read {
        Err(why) => say_refusal(why, out),
        Ok((parcel, used)) => {
            print!(out; " 0 {used}")?;
            say_parcel(parcel, out)
        }
    }
}

pub(crate) fn say_value(value: Result<i64, Refusal>, out: Stdout) -> io::Result<()> {
    match value {
        Err(why) => say_refusal(why, out),
        Ok(tenths) => {
            let bits = tenths.cast_unsigned();
            print!(out; " 0 {bits:016x}")
        }
    }
}

// What a write answered, its length or the refusal and no length, and its room as it is afterwards.
pub(crate) fn say_written(
    written: Result<usize, Refusal>,
    room: &[u8],
    out: Stdout,
) -> io::Result<()> {
    match written {
        Err(why) => {
            say_refusal(why, out)?;
            say(0, out)?;
        }
        Ok(length) => print!(out; " 0 {length}")?,
    }
    say_bytes(room, out)
}
