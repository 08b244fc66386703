// Writing a frame into lent room, from role, family, address, code and the data bytes of the table's row.
ghost use Rattle.room.specs.Writing.{Leaves};
ghost use Rattle.message.specs.Writing.{written_message};

use body::{Address, legal};
use codes::Role;
use meaning::tell;
use refusal::Refusal;
use weight::Family;

// Writes the frame of a message into lent room. Judged 5, 6, 7, 8, 2, 9.
#[tactic(auto, unfolding(crate::specs::Writing::written_message, crate::specs::Writing::judged_message_write, meaning::specs::Judging::told, frame::specs::Writing::written_frame, frame::specs::Writing::judged_write, frame::specs::Writing::judged_fields))]
pub fn write(
    role: Role,
    family: Family,
    address: Address,
    code: u8,
    data: &[u8],
    room: &mut [u8],
) -> Result<usize, Refusal>
    ensures { Leaves (written_message role family address code «data».now room.old) result room.new }
{
    if !legal(address) {
        return Err(Refusal::AddressIllegal);
    }
    tell(role, family, address, code, data)?;
    frame::write(address, code, data, room)
}
