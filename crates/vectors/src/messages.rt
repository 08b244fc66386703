// Cases of messages.
use crate::given::{part, take_address, take_byte, take_family, take_role};
use crate::words::{
    say_address, say_bytes, say_good, say_number, say_reading, say_refusal, say_small, say_tagged,
};
use codes::Load;
use meaning::{SaidWeight, What};
use message::Message;
use refusal::Refusal;
use std::io;
use std::io::{Stdin, Stdout};

fn say_text(tag: u8, number: u8, bytes: &[u8], out: Stdout) -> io::Result<()> {
    say_tagged(tag, number as u64, out)?;
    say_bytes(bytes, out)
}

fn load_number(load: Load) -> u8 {
    match load {
        Load::Net => 0,
        Load::Gross => 1,
    }
}

fn say_weight(said: SaidWeight, out: Stdout) -> io::Result<()> {
    say_tagged(4, load_number(said.load) as u64, out)?;
    say_reading(said.reading, out)
}

fn say_inputs(bits: u32, on: u32, out: Stdout) -> io::Result<()> {
    say_tagged(5, bits as u64, out)?;
    say_number(on as u64, out)
}

// What a message says: its kind, and its fields. A text, and the bytes of an event, are told as they stand in the body.
fn say_what(what: What, body: &[u8], out: Stdout) -> io::Result<()> {
    match what {
        What::Nothing => say_small(0, out),
        What::Serial(serial) => say_tagged(1, serial as u64, out),
        What::Number(number) => say_tagged(2, number as u64, out),
        What::Status(status) => say_tagged(3, status as u64, out),
        What::Weight(said) => say_weight(said, out),
        What::Inputs { bits, on } => say_inputs(bits, on, out),
        What::Outputs(bits) => say_tagged(6, bits as u64, out),
        What::Text { number, from, to } => say_text(7, number, part(body, from, to), out),
        What::Event { event, from, to } => say_text(8, event, part(body, from, to), out),
        What::Converter(number) => say_tagged(9, number, out),
        What::Error(error) => say_tagged(10, error as u64, out),
    }
}

fn say_message(message: Message, body: &[u8], out: Stdout) -> io::Result<()> {
    say_good(out)?;
    say_address(message.address, out)?;
    say_small(message.code, out)?;
    say_bytes(part(body, message.from, message.to), out)?;
    say_what(message.what, body, out)
}

// Body, role and family; address, code, data and what they say.
pub(crate) fn read(text: &[u8], input: Stdin, out: Stdout) -> io::Result<()> {
    match message::read(take_role(input)?, take_family(input)?, text) {
        Ok(message) => say_message(message, text, out),
        Err(why) => say_refusal(why, out),
    }
}

// Data, lent room, role, family, address and code.
pub(crate) fn write(
    text: &[u8],
    room: &mut [u8],
    input: Stdin,
) -> io::Result<Result<usize, Refusal>> {
    Ok(message::write(
        take_role(input)?,
        take_family(input)?,
        take_address(input)?,
        take_byte(input)?,
        text,
        room,
    ))
}
