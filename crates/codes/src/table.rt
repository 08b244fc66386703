// The table of messages: for each code what its data are, in a request and in a reply.
ghost use Rattle.std.specs.Prelude.{◌≡◌};
ghost use Rattle.codes.specs.Table.{line_of, row_of, among};
ghost use Rattle.codes.specs.Lengths.{length_of, length_right};

#[derive(Clone, Copy, Debug, PartialEq, Eq)]
pub enum Role {
    Request,
    Reply,
}

// Which weight a terminal tells.
#[derive(Clone, Copy, Debug, PartialEq, Eq)]
pub enum Load {
    Net,
    Gross,
}

// The values of NUM, by what it names.
#[derive(Clone, Copy, Debug, PartialEq, Eq)]
pub enum Num {
    Printers, // 03 or 13
    Indicators, // 1F, 20 or 21
    Devices, // 01, 02, 03, 13, 20, or E0 to FF
}

// What the data of a message are. A row knows no code. If two lines have the same data, one row stands in both.
#[derive(Clone, Copy, Debug, PartialEq, Eq)]
pub enum Row {
    Empty, // none
    Serial, // serial, 3 bytes, low first
    Number(Num), // NUM
    Status, // status, top bit 0
    Weight(Load), // W0 W1 W2 CON
    Inputs, // 4 bytes
    Outputs, // 4 bytes, told or to be set
    Text(Num), // NUM, a count, that many characters
    Event, // EVENT, six bytes
    Converter, // the converter's number, 5 bytes, unsigned, low first
    Error, // NER, the number of an error
}

// A line of the table: request data, reply data. In a role in which the table has no such code there is none.
#[derive(Clone, Copy, Debug, PartialEq, Eq)]
pub struct Line(pub Option<Row>, pub Option<Row>);

// How many data bytes a row has. No `Option<usize>`: a counted row has a length too, so `None` would be no plainer.
#[derive(Clone, Copy, Debug, PartialEq, Eq)]
pub enum Length {
    Exactly(usize),
    Counted, // 2 and as many as the second byte says
}

// A line of a code that has data in both roles.
fn both(request: Row, reply: Row) -> Line
    ensures { result ≡ record { 0 = Some request; 1 = Some reply } }
{
    Line(Some(request), Some(reply))
}

// The line of a code. No other place in the source names a code. So a code is added, changed or retired in its line here.
#[tactic(auto, unfolding(crate::specs::Table::line_of, crate::specs::Table::line_in))]
fn line_of(code: u8) -> Line
    ensures { result ≡ line_of code }
{
    match code {
        0xA1 => both(Row::Empty, Row::Serial),
        0xBF => both(Row::Number(Num::Printers), Row::Status),
        0xC0 => both(Row::Empty, Row::Empty),
        0xCD => both(Row::Empty, Row::Empty),
        0xCE => both(Row::Empty, Row::Empty),
        0xC2 => both(Row::Empty, Row::Weight(Load::Net)),
        0xC3 => both(Row::Empty, Row::Weight(Load::Gross)),
        0xC4 => both(Row::Empty, Row::Inputs),
        0xC5 => both(Row::Empty, Row::Outputs),
        0xC6 => both(Row::Number(Num::Indicators), Row::Text(Num::Indicators)),
        0xC7 => both(Row::Empty, Row::Event),
        0xCC => both(Row::Empty, Row::Converter),
        0xD0 => both(Row::Outputs, Row::Empty),
        0xD2 => both(Row::Text(Num::Devices), Row::Empty),
        0xEE => Line(None, Some(Row::Error)),
        _ => Line(None, None),
    }
}

// The row of a code in a role, if the table has one. Refusal 6's rule.
#[tactic(auto, unfolding(crate::specs::Table::row_of))]
pub fn row_of(role: Role, code: u8) -> Option<Row>
    ensures { result ≡ row_of role code }
{
    let line = line_of(code);
    match role {
        Role::Request => line.0,
        Role::Reply => line.1,
    }
}

// How many data bytes a row has.
fn length_of(row: Option<Row>) -> Length
    ensures { result ≡ length_of row }
{
    match row {
        None => Length::Exactly(0), // 6 comes first
        Some(Row::Empty) => Length::Exactly(0),
        Some(Row::Serial) => Length::Exactly(3),
        Some(Row::Number(_)) => Length::Exactly(1),
        Some(Row::Status) => Length::Exactly(1),
        Some(Row::Weight(_)) => Length::Exactly(4),
        Some(Row::Inputs) => Length::Exactly(4),
        Some(Row::Outputs) => Length::Exactly(4),
        Some(Row::Text(_)) => Length::Counted,
        Some(Row::Event) => Length::Exactly(7),
        Some(Row::Converter) => Length::Exactly(5),
        Some(Row::Error) => Length::Exactly(1),
    }
}

// Refusal 7's rule, of a row as the table answers it.
pub fn length_right(row: Option<Row>, data: &[u8]) -> bool
    ensures { result ≡ length_right (length_of row) «data».now }
{
    match length_of(row) {
        Length::Exactly(count) => data.len() == count,
        Length::Counted => {
            let Some(&count) = data.get(1) else {
                return false;
            };
            data.len() == 2 + count as usize
        }
    }
}

// Whether NUM is one of those numbers.
pub fn is_among(numbers: Num, number: u8) -> bool
    ensures { result ≡ among numbers number }
{
    match numbers {
        Num::Printers => matches!(number, 0x03 | 0x13),
        Num::Indicators => matches!(number, 0x1F..=0x21),
        Num::Devices => matches!(number, 0x01..=0x03 | 0x13 | 0x20 | 0xE0..=0xFF),
    }
}
