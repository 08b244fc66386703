// Frames and messages, for C.
ghost use Rattle.std.specs.Prelude.{◌≡◌};
ghost use Rattle.frame.specs.Writing.{written_frame};
ghost use Rattle.crossing.specs.Families.{family_from};
ghost use Rattle.crossing.specs.Roles.{role_from};
ghost use Rattle.crossing.specs.Writing.{LeavesAcross};
ghost use Rattle.quay_message.specs.Addresses.{address_from};
ghost use Rattle.quay_message.specs.Messages.{message_in};
ghost use Rattle.quay_message.specs.Writing.{written_in};

use crossing::QuayWritten;
use quay_message::QuayMessage;

// `quay_message::quay_write_frame`: the frame of an address, a code and data. Judged 5, 2, 9.
#[unsafe(no_mangle)]
pub extern "C" fn quay_write_frame(
    short: u8,
    serial: u32,
    code: u8,
    data: &[u8],
    room: &mut [u8],
) -> QuayWritten
    ensures { LeavesAcross (written_frame (address_from short serial) code «data».now room.old) result room.new }
{
    quay_message::quay_write_frame(short, serial, code, data, room)
}

// `quay_message::quay_write_message`: the frame of a message, in a role, by the family of its line. Judged 8 for a role or a family that does not
// exist, and then 5, 6, 7, 8, 2, 9.
#[unsafe(no_mangle)]
pub extern "C" fn quay_write_message(
    role: u8,
    family: u8,
    short: u8,
    serial: u32,
    code: u8,
    data: &[u8],
    room: &mut [u8],
) -> QuayWritten
    ensures { LeavesAcross (written_in (role_from role) (family_from family) short serial code «data».now room.old) result room.new }
{
    quay_message::quay_write_message(role, family, short, serial, code, data, room)
}

// `quay_message::quay_read_message`: a lent body read in a role, by the family of its line. Judged 8 for a role or a family that does not exist,
// and then 2, 1, 4, 5, 6, 7, 8.
#[unsafe(no_mangle)]
pub extern "C" fn quay_read_message(role: u8, family: u8, body: &[u8]) -> QuayMessage
    ensures { result ≡ message_in (role_from role) (family_from family) body.now }
{
    quay_message::quay_read_message(role, family, body)
}
