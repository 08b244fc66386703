// What an event lists as: a weight, another message, or a refusal. A caller counts by this and does not look at the text.
ghost use Rattle.std.specs.Prelude.{◌≡◌};
ghost use Rattle.line.specs.Readers.{heard_as};
ghost use Rattle.entries.specs.Entries.{entry_of, entry_if, entry_heard};

use body::{Address, check_right};
use codes::{Load, Role};
use line::Event;
use meaning::weight_said;
use message::{Message, read_without_check};
use refusal::Refusal;
use room::front;
use weight::{Family, Reading};

// What is to be listed.
#[derive(Clone, Copy, Debug, PartialEq, Eq)]
pub enum Entry {
    Weight(Load, Address, Reading),
    Message(Address, u8), // any other message, by its code
    Refused(Refusal), // of the line or of the message
}

// A body that was read, or the refusal it earned.
pub fn entry_of(received: Result<Message, Refusal>) -> Entry
    ensures { result ≡ entry_of received }
{
    let message = match received {
        Ok(message) => message,
        Err(why) => return Entry::Refused(why),
    };
    match weight_said(message.what) {
        Some(said) => Entry::Weight(said.load, message.address, said.reading),
        None => Entry::Message(message.address, message.code),
    }
}

// An event as it is to be listed. An argument tells whether the check of its body is right. A line hands out no body with a wrong check, so
// a listing need not test it again. The body of a frame stands at the front of `body`, as the reader leaves it, and is read as a reply, by the family of the line. For any
// other event `body` is not looked at.
// Stays beside `heard`, which is made of it: in a listing the check is tested once, for its speed (docs/DECISIONS.md).
#[tactic(auto, unfolding(crate::specs::Entries::entry_if))]
pub fn heard_without_check(
    family: Family,
    right: bool,
    event: Option<Event>,
    body: &[u8],
) -> Option<Entry>
    ensures { result ≡ entry_if right family (heard_as event body.now) }
{
    let received = match event? {
        Event::Refused(why, _, _) => Err(why),
        Event::Frame(_, place) => read_without_check(
            Role::Reply,
            family,
            right,
            front(body, place.0),
        ),
    };
    Some(entry_of(received))
}

// An event as it is to be listed. Its body is judged again, check and all.
#[tactic(auto, unfolding(crate::specs::Entries::entry_if, crate::specs::Entries::entry_heard, message::specs::Reading::read_message))]
pub fn heard(family: Family, event: Option<Event>, body: &[u8]) -> Option<Entry>
    ensures { result ≡ entry_heard family (heard_as event body.now) }
{
    let right = match event? {
        Event::Refused(_, _, _) => true, // there is no body whose check could be wrong
        Event::Frame(_, place) => check_right(front(body, place.0)),
    };
    heard_without_check(family, right, event, body)
}
