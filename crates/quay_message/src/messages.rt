// Messages read from a lent body.
ghost use Rattle.std.specs.Prelude.{◌≡◌};
ghost use Rattle.crossing.specs.Families.{family_from};
ghost use Rattle.crossing.specs.Roles.{role_from};
ghost use Rattle.quay_message.specs.Messages.{without_digits, plain, placed, what_out, received_out, message_in};

use body::{first_byte, serial_of};
use crossing::role_from;
use meaning::What;
use message::Message;
use records::kind_of;
use refusal::Refusal;
use weight::{Family, FourBytes};

// What a message says. A number, a count or a weight that its kind does not have is all ones. No message can say that.
// C has no enums with fields: `says` names the kind, and the layouts here are the interface.
#[repr(C)]
#[derive(Clone, Copy, Debug, PartialEq, Eq)]
pub struct QuayWhat {
    pub number: u64, // serial, NUM, status, the bits of inputs or outputs, EVENT, the converter's number, NER
    pub from: usize, // where in the body a text, or the six bytes of an event, begin
    pub to: usize, // the place behind them
    pub on: u32, // how many of the 32 inputs are on
    pub weight: FourBytes, // as it was heard
    pub load: u8, // 1 gross, 2 net
    pub says: u8, // 0 nothing, 1 serial, 2 number, 3 status, 4 weight, 5 inputs, 6 outputs, 7 text, 8 event, 9 converter, 10 error
}

// All ones: above every number that is said (the converter's has 40 bits), and above 32 inputs.
const NO_NUMBER: u64 = u64::MAX;

const NO_COUNT: u32 = u32::MAX;

// A message, or the refusal its body earns.
#[repr(C)]
#[derive(Clone, Copy, Debug, PartialEq, Eq)]
pub struct QuayMessage {
    pub what: QuayWhat,
    pub from: usize, // where in the body its data begin
    pub to: usize, // the place behind them
    pub serial: u32,
    pub short: u8, // 0 says that the serial is the address
    pub code: u8,
    pub refusal: u8,
}

// All ones are no weight: every use of it is refused by 8.
fn no_weight() -> FourBytes
    ensures { result ≡ without_digits }
{
    FourBytes {
        w0: 255,
        w1: 255,
        w2: 255,
        con: 255,
        family: 255,
    }
}

// A kind that says a number.
fn plain(says: u8, number: u64, on: u32) -> QuayWhat
    ensures { result ≡ plain says number on }
{
    QuayWhat {
        number,
        from: 0,
        to: 0,
        on,
        weight: no_weight(),
        load: 0,
        says,
    }
}

// A kind that says a number, and a place in the body.
fn placed(says: u8, number: u8, from: usize, to: usize) -> QuayWhat
    ensures { result ≡ placed says number from to }
{
    QuayWhat {
        number: number as u64,
        from,
        to,
        on: NO_COUNT,
        weight: no_weight(),
        load: 0,
        says,
    }
}

impl From<What> for QuayWhat {
    ghost from_gives = { λ what answered. answered ≡ what_out what };

    fn from(what: What) -> QuayWhat {
        match what {
            What::Nothing => plain(0, NO_NUMBER, NO_COUNT),
            What::Serial(serial) => plain(1, serial as u64, NO_COUNT),
            What::Number(number) => plain(2, number as u64, NO_COUNT),
            What::Status(status) => plain(3, status as u64, NO_COUNT),
            What::Weight(said) => QuayWhat {
                number: NO_NUMBER,
                from: 0,
                to: 0,
                on: NO_COUNT,
                weight: said.bytes,
                load: kind_of(said.load),
                says: 4,
            },
            What::Inputs { bits, on } => plain(5, bits as u64, on),
            What::Outputs(bits) => plain(6, bits as u64, NO_COUNT),
            What::Text { number, from, to } => placed(7, number, from, to),
            What::Event { event, from, to } => placed(8, event, from, to),
            What::Converter(number) => plain(9, number, NO_COUNT),
            What::Error(error) => plain(10, error as u64, NO_COUNT),
        }
    }
}

impl From<Result<Message, Refusal>> for QuayMessage {
    ghost from_gives = { λ received answered. answered ≡ received_out received };

    fn from(received: Result<Message, Refusal>) -> QuayMessage {
        match received {
            Ok(message) => QuayMessage {
                what: QuayWhat::from(message.what),
                from: message.from,
                to: message.to,
                serial: serial_of(message.address),
                short: first_byte(message.address),
                code: message.code,
                refusal: 0,
            },
            Err(why) => QuayMessage {
                what: plain(0, NO_NUMBER, NO_COUNT),
                from: 0,
                to: 0,
                serial: 0,
                short: 0,
                code: 0,
                refusal: u8::from(why),
            },
        }
    }
}

#[tactic(auto, using(crossing::proofs::Crossing::family_crosses))]
fn read(role: u8, family: u8, body: &[u8]) -> Result<Message, Refusal>
    ensures { received_out result ≡ message_in (role_from role) (family_from family) body.now }
{
    let role = role_from(role)?;
    let family = Family::try_from(family)?;
    message::read(role, family, body)
}

// A lent body read in a role, by the family of its line. Judged 8 for a role or a family that does not exist, and then 2, 1, 4, 5, 6, 7, 8.
#[unsafe(no_mangle)]
pub extern "C" fn quay_read_message(role: u8, family: u8, body: &[u8]) -> QuayMessage
    ensures { result ≡ message_in (role_from role) (family_from family) body.now }
{
    QuayMessage::from(read(role, family, body))
}
