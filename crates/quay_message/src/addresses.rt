// Addresses as two numbers.
ghost use Rattle.std.specs.Prelude.{◌≡◌};
ghost use Rattle.quay_message.specs.Addresses.{address_from};

use body::Address;

// A short address and serial 0, or short 0 and a serial. Both at once stand for the short address 0, which no frame may carry.
// Two numbers, as the exports take them: no type of ours crosses here from which an address could be made.
#[tactic(auto, unfolding(crate::specs::Addresses::address_from))]
pub(crate) fn address_from(short: u8, serial: u32) -> Address
    ensures { result ≡ address_from short serial }
{
    match (short, serial) {
        (0, serial) => Address::Serial(serial),
        (short, 0) => Address::Short(short),
        _ => Address::Short(0),
    }
}
