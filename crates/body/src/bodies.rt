// What a body is: address, operation code, data, check. How a body is judged, and where each part stands in it.
ghost use Rattle.std.specs.Prelude.{◌≡◌, false, ◌≤◌};
ghost use Rattle.body.specs.Addresses.{address_in, address_length};
ghost use Rattle.body.specs.Body.{short, check_right, judged_lent_if, judged_lent, parts_of, opened_if, opened_body};

use crate::addresses::{Address, legal};
use check_byte::feed_all;
use low_first::word;
use refusal::Refusal;

// The most bytes a body has, its check among them. Delimiters and inserted FE bytes aren't counted.
pub const LONGEST_BODY: usize = 255;

// The parts of a body. Its data are the bytes from place `from` up to but not including place `to`. The check stands at `to`.
#[derive(Clone, Copy, Debug, PartialEq, Eq)]
pub struct Parts {
    pub address: Address,
    pub code: u8,
    pub from: usize,
    pub to: usize,
}

// Refusal 1: under 3 bytes, or first byte 00 and under 6.
#[tactic(auto, unfolding(crate::specs::Body::short))]
fn is_short(body: &[u8]) -> bool
    ensures { result ≡ short body.now }
{
    body.len() < 3 || (body[0] == 0 && body.len() < 6)
}

// The address that a body begins with.
#[tactic(auto, using(crate::proofs::Shortness::three, crate::proofs::Shortness::six), unfolding(crate::specs::Addresses::address_in, low_first::specs::LowFirst::low_first))]
fn address_in(body: &[u8]) -> Address
    requires { short body.now ≡ false }
    ensures { result ≡ address_in body.now }
{
    match body[0] {
        0 => Address::Serial(word(body[1], body[2], body[3], 0)),
        first => Address::Short(first),
    }
}

// How many bytes of a body its address takes.
#[tactic(auto, unfolding(crate::specs::Addresses::address_length))]
pub fn address_length(address: Address) -> usize
    ensures { (result ≡ address_length address) × (result ≤ 4) }
{
    match address {
        Address::Short(_) => 1,
        Address::Serial(_) => 4,
    }
}

// Whether the check that a body ends with is right: the receiver feeds the whole body and wants 0.
#[tactic(auto, unfolding(check_byte::specs::Register::received))]
pub fn check_right(body: &[u8]) -> bool
    ensures { result ≡ check_right body.now }
{
    feed_all(0, body) == 0
}

// A lent body judged 2, 1, 4, 5. An argument tells whether its check is right.
fn judge_told(right: bool, body: &[u8]) -> Result<(), Refusal>
    ensures { result ≡ judged_lent_if right body.now }
{
    if LONGEST_BODY < body.len() {
        return Err(Refusal::BodyLong);
    }
    if is_short(body) {
        return Err(Refusal::BodyShort);
    }
    if !right {
        return Err(Refusal::CheckWrong);
    }
    if !legal(address_in(body)) {
        return Err(Refusal::AddressIllegal);
    }
    Ok(())
}

// A lent body judged 2, 1, 4, 5. A body that a line kept has at most 255 bytes, so for it the order is 1, 4, 5.
#[tactic(auto, unfolding(crate::specs::Body::judged_lent))]
pub fn judge(body: &[u8]) -> Result<(), Refusal>
    ensures { result ≡ judged_lent body.now }
{
    judge_told(check_right(body), body)
}

#[tactic(auto, using(crate::proofs::Shortness::three, crate::proofs::Shortness::address_inside), unfolding(crate::specs::Body::parts_of, crate::specs::Body::code_in))]
fn parts_of(body: &[u8]) -> Parts
    requires { short body.now ≡ false }
    ensures { result ≡ parts_of body.now }
{
    let address = address_in(body);
    let at = address_length(address);
    Parts {
        address,
        code: body[at],
        from: at + 1,
        to: body.len() - 1,
    }
}

// A lent body, judged 2, 1, 4, 5 and taken apart. An argument tells whether its check is right, and this function does not test it. The
// line has found the check right in a body that it handed out.
#[tactic(auto, using(crate::proofs::Shortness::told_not_short), unfolding(crate::specs::Body::opened_if))]
pub fn open_without_check(right: bool, body: &[u8]) -> Result<Parts, Refusal>
    ensures { result ≡ opened_if right body.now }
{
    judge_told(right, body)?;
    Ok(parts_of(body))
}

// A lent body, judged 2, 1, 4, 5 and taken apart.
pub fn open(body: &[u8]) -> Result<Parts, Refusal>
    ensures { result ≡ opened_body body.now }
{
    open_without_check(check_right(body), body)
}
