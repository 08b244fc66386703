// Reading a lent body in a role as a message.
ghost use Rattle.std.specs.Prelude.{◌≡◌};
ghost use Rattle.message.specs.Reading.{read_if, read_message};

use body::{Address, check_right, open_without_check};
use codes::Role;
use meaning::{What, tell};
use refusal::Refusal;
use weight::Family;

// A message. Its data are the bytes of the lent body from place `from` up to but not including place `to`. Handed to the writer with
// the same role, family, address and code, they make the same body.
#[derive(Clone, Copy, Debug, PartialEq, Eq)]
pub struct Message {
    pub address: Address,
    pub code: u8,
    pub from: usize,
    pub to: usize,
    pub what: What,
}

// A lent body read in a role, by the family of its line. An argument tells whether its check is right. Judged 2, 1, 4, 5, and then 6, 7, 8. The line has found the
// check right in a body that it handed out, so it need not be tested again.
// Stays beside `read`, which is made of it: in a listing the check is tested once, for its speed (docs/DECISIONS.md).
pub fn read_without_check(
    role: Role,
    family: Family,
    right: bool,
    body: &[u8],
) -> Result<Message, Refusal>
    ensures { result ≡ read_if right role family body.now }
{
    let parts = open_without_check(right, body)?;
    let what = tell(
        role,
        family,
        parts.address,
        parts.code,
        &body[parts.from..parts.to],
    )?;
    Ok(Message {
        address: parts.address,
        code: parts.code,
        from: parts.from,
        to: parts.to,
        what,
    })
}

// A lent body read in a role, by the family of its line. Judged 2, 1, 4, 5, and then 6, 7, 8.
#[tactic(auto, unfolding(crate::specs::Reading::read_message))]
pub fn read(role: Role, family: Family, body: &[u8]) -> Result<Message, Refusal>
    ensures { result ≡ read_message role family body.now }
{
    read_without_check(role, family, check_right(body), body)
}
