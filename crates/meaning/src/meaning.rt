// What a message says. Its code and data are judged 6, 7, 8. Then they give numbers, a reading, or the place of a text.
ghost use Rattle.std.specs.Prelude.{◌≡◌, true, ◌≤◌};
ghost use Rattle.codes.specs.Lengths.{length_of, length_right};
ghost use Rattle.meaning.specs.Meaning.{data_from};
ghost use Rattle.meaning.specs.Weights.{weight_said};
ghost use Rattle.meaning.specs.Judging.{within, said, told};

use body::{Address, address_length};
use codes::{Load, Role, Row, is_among, length_right, row_of};
use inputs::count_on;
use low_first::{long, word};
use refusal::Refusal;
use weight::{Family, FourBytes, Reading, read_bytes};

// A weight as it was said: gross or net, its four bytes, and the reading that they stand for. The log notes the bytes, the listing shows the reading.
#[derive(Clone, Copy, Debug, PartialEq, Eq)]
pub struct SaidWeight {
    pub load: Load,
    pub bytes: FourBytes,
    pub reading: Reading,
}

// What a message says. A text, and the six bytes of an event, stand in the lent body from place `from` up to but not including place `to`.
#[derive(Clone, Copy, Debug, PartialEq, Eq)]
pub enum What {
    Nothing, // there are no data
    Serial(u32), // the terminal's serial number
    Number(u8), // NUM
    Status(u8),
    Weight(SaidWeight),
    Inputs { bits: u32, on: u32 }, // the first byte is the low one; how many of the 32 are on
    Outputs(u32), // the first byte is the low one
    Text { number: u8, from: usize, to: usize },
    Event { event: u8, from: usize, to: usize },
    Converter(u64), // the converter's number
    Error(u8), // NER, the number of an error
}

// 8, where a field is not right.
fn judged(right: bool, what: What) -> Result<What, Refusal>
    ensures { result ≡ within right what }
{
    if right {
        Ok(what)
    } else {
        Err(Refusal::FieldOutside)
    }
}

// Where in a body the data begin: behind the address and the code.
fn data_from(address: Address) -> usize
    ensures place { result ≡ data_from address }
    ensures near { result ≤ 255 }
{
    address_length(address) + 1
}

// What data of the right length say, judged 8. In a body they begin behind the address and the code.
#[tactic(auto, unfolding(crate::specs::Judging::said, crate::specs::Meaning::on_in, low_first::specs::LowFirst::low_first, weight::specs::Bytes::four_in))]
fn say(family: Family, row: Row, address: Address, data: &[u8]) -> Result<What, Refusal>
    requires { length_right (length_of (Some row)) «data».now ≡ true }
    ensures { result ≡ said family (Some row) (data_from address) «data».now }
{
    let from = data_from(address);
    let to = from + data.len();
    match (row, data) {
        (Row::Empty, _) => Ok(What::Nothing),
        (Row::Serial, &[low, middle, high]) => Ok(What::Serial(word(low, middle, high, 0))),
        (Row::Number(numbers), &[number]) => judged(
            is_among(numbers, number),
            What::Number(number),
        ),
        (Row::Status, &[status]) => judged(status < 0x80, What::Status(status)),
        (Row::Weight(load), &[w0, w1, w2, con]) => {
            let bytes = FourBytes {
                w0,
                w1,
                w2,
                con,
                family: u8::from(family),
            };
            let reading = read_bytes(bytes).map_err(|_| Refusal::FieldOutside)?;
            Ok(What::Weight(SaidWeight {
                load,
                bytes,
                reading,
            }))
        }
        (Row::Inputs, &[first, second, third, fourth]) => Ok(What::Inputs {
            bits: word(first, second, third, fourth),
            on: count_on(first, second, third, fourth),
        }),
        (Row::Outputs, &[first, second, third, fourth]) => Ok(What::Outputs(word(
            first, second, third, fourth,
        ))),
        (Row::Text(numbers), &[number, _, ..]) => judged(
            is_among(numbers, number),
            What::Text {
                number,
                from: from + 2,
                to,
            },
        ),
        (Row::Event, &[event, ..]) => judged(
            event != 0x70,
            What::Event {
                event,
                from: from + 1,
                to,
            },
        ),
        (Row::Converter, &[first, second, third, fourth, fifth]) => Ok(What::Converter(long(
            word(first, second, third, fourth),
            word(fifth, 0, 0, 0),
        ))),
        (Row::Error, &[error]) => Ok(What::Error(error)),
        _ => unreachable!(), // the length is right, so no row is without its bytes
    }
}

// What code and data say, judged 6, 7, 8. In a body the data stand behind the address and the code.
#[tactic(auto, unfolding(crate::specs::Judging::told, crate::specs::Judging::judged_code, crate::specs::Judging::judged_message, crate::specs::Judging::judged_data, crate::specs::Judging::said))]
pub fn tell(
    role: Role,
    family: Family,
    address: Address,
    code: u8,
    data: &[u8],
) -> Result<What, Refusal>
    ensures { result ≡ told role family address code «data».now }
{
    let row = row_of(role, code).ok_or(Refusal::CodeUnknown)?;
    if !length_right(Some(row), data) {
        return Err(Refusal::LengthWrong);
    }
    say(family, row, address, data)
}

// The weight that a message says, or that it says none. Whoever asks only this need not know what else a message may say.
pub fn weight_said(what: What) -> Option<SaidWeight>
    ensures { result ≡ weight_said what }
{
    match what {
        What::Weight(said) => Some(said),
        _ => None,
    }
}
