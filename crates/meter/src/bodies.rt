// Reading bodies of 7 bytes as replies of a line of 002, as many as a block has. All that each message says goes into the sum.
use crate::tally::Counts;
use body::Address;
use codes::Role;
use meaning::What;
use message::{Message, read};
use weight::{Family, Reading};

const BODY: usize = 7;

// Each mark of a reading at the place of its bit.
fn marks_of(reading: Reading) -> u64 {
    (reading.minus as u64) << 7
        | (reading.bit6 as u64) << 6
        | (reading.bit5 as u64) << 5
        | (reading.settled as u64) << 4
        | (reading.overload as u64) << 3
}

fn sum_of_reading(reading: Reading) -> u64 {
    let marks = marks_of(reading) | reading.point as u64;
    (reading.number as u64)
        .wrapping_add(marks)
        .wrapping_add(u8::from(reading.family) as u64)
}

fn sum_of_part(number: u8, from: usize, to: usize) -> u64 {
    (number as u64)
        .wrapping_add(from as u64)
        .wrapping_add(to as u64)
}

fn sum_of_what(what: What) -> u64 {
    match what {
        What::Nothing => 0,
        What::Serial(serial) => serial as u64,
        What::Number(number) => number as u64,
        What::Status(status) => status as u64,
        What::Weight(said) => sum_of_reading(said.reading),
        What::Inputs { bits, on } => (bits as u64).wrapping_add(on as u64),
        What::Outputs(bits) => bits as u64,
        What::Text { number, from, to } => sum_of_part(number, from, to),
        What::Event { event, from, to } => sum_of_part(event, from, to),
        What::Converter(adc) => adc,
        What::Error(error) => error as u64,
    }
}

fn sum_of_address(address: Address) -> u64 {
    match address {
        Address::Short(short) => short as u64,
        Address::Serial(serial) => serial as u64,
    }
}

fn sum_of(message: Message) -> u64 {
    sum_of_address(message.address)
        .wrapping_add(sum_of_part(message.code, message.from, message.to))
        .wrapping_add(sum_of_what(message.what))
}

pub(crate) fn read_bodies(counts: &mut Counts, block: &[u8]) {
    for body in block.chunks_exact(BODY) {
        counts.add(read(Role::Reply, Family::Of002, body).map(sum_of));
    }
}
