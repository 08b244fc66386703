// Frames and messages written into lent room.
ghost use Rattle.room.specs.Writing.{Leaves};
ghost use Rattle.frame.specs.Writing.{written_frame};
ghost use Rattle.crossing.specs.Families.{family_from};
ghost use Rattle.crossing.specs.Roles.{role_from};
ghost use Rattle.crossing.specs.Writing.{LeavesAcross};
ghost use Rattle.quay_message.specs.Addresses.{address_from};
ghost use Rattle.quay_message.specs.Writing.{written_in};

use crate::addresses::address_from;
use crossing::{QuayWritten, role_from};
use refusal::Refusal;
use weight::Family;

// The frame of an address, a code and data. Judged 5, 2, 9.
#[unsafe(no_mangle)]
#[tactic(auto, using(crossing::proofs::Crossing::crosses))]
pub extern "C" fn quay_write_frame(
    short: u8,
    serial: u32,
    code: u8,
    data: &[u8],
    room: &mut [u8],
) -> QuayWritten
    ensures { LeavesAcross (written_frame (address_from short serial) code «data».now room.old) result room.new }
{
    let address = address_from(short, serial);
    QuayWritten::from(frame::write(address, code, data, room))
}

#[tactic(auto, using(crossing::proofs::Crossing::family_crosses))]
fn write(
    role: u8,
    family: u8,
    short: u8,
    serial: u32,
    code: u8,
    data: &[u8],
    room: &mut [u8],
) -> Result<usize, Refusal>
    ensures { Leaves (written_in (role_from role) (family_from family) short serial code «data».now room.old) result room.new }
{
    let role = role_from(role)?;
    let family = Family::try_from(family)?;
    let address = address_from(short, serial);
    message::write(role, family, address, code, data, room)
}

// The frame of a message, in a role, by the family of its line. Judged 8 for a role or a family that does not exist, and then 5, 6, 7, 8, 2, 9.
#[unsafe(no_mangle)]
#[tactic(auto, using(crossing::proofs::Crossing::crosses))]
pub extern "C" fn quay_write_message(
    role: u8,
    family: u8,
    short: u8,
    serial: u32,
    code: u8,
    data: &[u8],
    room: &mut [u8],
) -> QuayWritten
    ensures { LeavesAcross (written_in (role_from role) (family_from family) short serial code «data».now room.old) result room.new }
{
    QuayWritten::from(write(role, family, short, serial, code, data, room))
}
