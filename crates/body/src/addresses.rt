// What an address is: a short one, or the serial number of a terminal.
ghost use Rattle.std.specs.Prelude.{◌≡◌};
ghost use Rattle.body.specs.Addresses.{legal, first_byte, serial_of};

#[derive(Clone, Copy, Debug, PartialEq, Eq)]
pub enum Address {
    Short(u8),
    Serial(u32),
}

// The highest short address, and the highest serial, which has three bytes. No line that started fresh begins a body with FE or FF.
const HIGHEST_SHORT: u8 = 0xFD;

const HIGHEST_SERIAL: u32 = 16_777_215;

// Whether an address may stand in a frame.
#[tactic(auto, unfolding(crate::specs::Addresses::legal))]
pub fn legal(address: Address) -> bool
    ensures { result ≡ legal address }
{
    match address {
        Address::Short(byte) => (1..=HIGHEST_SHORT).contains(&byte),
        Address::Serial(serial) => serial <= HIGHEST_SERIAL,
    }
}

// The first byte of an address on the wire: 00 says that a serial follows.
pub fn first_byte(address: Address) -> u8
    ensures { result ≡ first_byte address }
{
    match address {
        Address::Short(byte) => byte,
        Address::Serial(_) => 0,
    }
}

// The serial of an address, 0 for a short one.
pub fn serial_of(address: Address) -> u32
    ensures { result ≡ serial_of address }
{
    match address {
        Address::Short(_) => 0,
        Address::Serial(serial) => serial,
    }
}
