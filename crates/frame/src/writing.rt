// Frame writing: one FF, the body, two FFs, and one FE after each FF inside the body.
ghost use Rattle.std.specs.Prelude.{◌≡◌, ◌+◌, ◌≤◌, ◌==◌, length, count_by};
ghost use Rattle.room.specs.Laying.{Laid};
ghost use Rattle.room.specs.Writing.{Leaves};
ghost use Rattle.body.specs.Addresses.{address_bytes, address_length};
ghost use Rattle.body.specs.Body.{unchecked, body_of};
ghost use Rattle.frame.specs.Stuffing.{stuffed_byte, stuffed, framed, needed};
ghost use Rattle.frame.specs.Writing.{needed_for, written_frame};
ghost use Rattle.frame.specs.Preparing.{Prepared};

use body::{Address, LONGEST_BODY, address_length, legal};
use check_byte::check_of;
use refusal::Refusal;
use room::{lay, lay_byte, lay_low};

// The address as it stands on the wire, at the front of a room.
fn put_address(address: Address, room: &mut [u8]) -> usize
    requires { length (address_bytes address) ≤ length room.old }
    ensures { Laid 0 (address_bytes address) room.old result room.new }
{
    match address {
        Address::Short(byte) => lay_byte(byte, room, 0),
        Address::Serial(serial) => {
            let behind_zero = lay_byte(0, room, 0);
            lay_low(serial as u64, 3, room, behind_zero)
        }
    }
}

// Address, code and data, at the front of a room.
fn put_unchecked(address: Address, code: u8, data: &[u8], room: &mut [u8]) -> usize
    requires { length (unchecked address code «data».now) ≤ length room.old }
    ensures { Laid 0 (unchecked address code «data».now) room.old result room.new }
{
    let behind_address = put_address(address, room);
    let behind_code = lay_byte(code, room, behind_address);
    lay(data, room, behind_code)
}

// Address, code, data and check, at the front of a room.
fn assemble(address: Address, code: u8, data: &[u8], room: &mut [u8]) -> usize
    requires { length (body_of address code «data».now) ≤ length room.old }
    ensures { Laid 0 (body_of address code «data».now) room.old result room.new }
{
    let end = put_unchecked(address, code, data, room);
    let check = check_of(&room[..end]);
    lay_byte(check, room, end)
}

// The number of FF bytes in a body.
fn count_ff(body: &[u8]) -> usize
    ensures { result ≡ count_by (λ byte. byte == 0xFF) body.now }
{
    body.iter().filter(|byte| **byte == 0xFF).count()
}

// One byte of the body onto the wire; after an FF, one FE.
fn put(byte: u8, room: &mut [u8], at: usize) -> usize
    requires { at + length (stuffed_byte byte) ≤ length room.old }
    ensures { Laid at (stuffed_byte byte) room.old result room.new }
{
    let next = lay_byte(byte, room, at);
    if byte != 0xFF {
        return next;
    }
    lay_byte(0xFE, room, next)
}

// The body onto the wire.
fn put_body(body: &[u8], room: &mut [u8], at: usize) -> usize
    requires { at + length (stuffed body.now) ≤ length room.old }
    ensures { Laid at (stuffed body.now) room.old result room.new }
{
    let mut next = at;
    for byte in body {
        next = put(*byte, room, next);
    }
    next
}

// One FF, the body, two FFs.
fn put_frame(body: &[u8], room: &mut [u8]) -> usize
    requires { needed body.now ≤ length room.old }
    ensures { Laid 0 (framed body.now) room.old result room.new }
{
    let start = lay_byte(0xFF, room, 0);
    let end = put_body(body, room, start);
    let last = lay_byte(0xFF, room, end);
    lay_byte(0xFF, room, last)
}

// How many bytes the body has.
fn body_length(address: Address, data: &[u8]) -> usize
    ensures { result ≡ address_length address + length «data».now + 2 }
{
    address_length(address) + data.len() + 2
}

// Judged 5, then 2. Then the body is made ready at the front of `body`, and the answer is the room that its frame needs.
fn prepare(
    address: Address,
    code: u8,
    data: &[u8],
    body: &mut [u8; LONGEST_BODY],
) -> Result<usize, Refusal>
    ensures { Prepared address code «data».now body.old result body.new }
{
    if !legal(address) {
        return Err(Refusal::AddressIllegal);
    }
    if LONGEST_BODY < body_length(address, data) {
        return Err(Refusal::BodyLong);
    }
    let end = assemble(address, code, data, body);
    let count = count_ff(&body[..end]);
    Ok(end + 3 + count)
}

// The room that the frame of an address, a code and data needs. Nothing is written.
pub fn room_needed(address: Address, code: u8, data: &[u8]) -> Result<usize, Refusal>
    ensures { result ≡ needed_for address code «data».now }
{
    let mut body = [0u8; LONGEST_BODY];
    prepare(address, code, data, &mut body)
}

// The frame of an address, a code and data into lent room. Judged 5, 2, 9.
pub fn write(address: Address, code: u8, data: &[u8], room: &mut [u8]) -> Result<usize, Refusal>
    ensures { Leaves (written_frame address code «data».now room.old) result room.new }
{
    let mut body = [0u8; LONGEST_BODY];
    let needed = prepare(address, code, data, &mut body)?;
    let end = body_length(address, data);
    if room.len() < needed {
        return Err(Refusal::RoomShort);
    }
    Ok(put_frame(&body[..end], room))
}
