// The check of a parcel scale's message (02, request 5; 003, section 4.1): a register of sixteen bits that the body's bytes enter top bit first. A body
// enters four bytes at a go. The twin of `check_byte`: both go by the laws of `register`, but each folds in its own way, and a trait of the two would outgrow their loops.
//
// A wide number stands for the register that its bits make of an empty one. Under 11021h thirty-two zero bits make of a register what twenty-four, ten and
// none make of it, folded together, and sixteen what twelve, five and none make of it. That is how what stands above 32 or 16 bits is folded in below.
// Of what is folded in, some stands above again. `again` has it all at once.

#![tactic(auto)]

ghost use Rattle.std.specs.Prelude.{◌≡◌, length, ◌<◌, ◌*◌};
ghost use Rattle.register.specs.Register.{all_in};
ghost use Rattle.parcel_check.specs.Check.{enter_bits, enter_byte, parcel_check};

// What stands above 32 bits, as a number of 32 bits that stands for the same.
#[tactic(auto, using(crate::proofs::Folding::thirty_two))]
fn below_32(above: u32) -> u32
    ensures { enter_bits 64 0 result ≡ enter_bits 64 0 (above * 4_294_967_296) }
{
    let twice = above ^ (above / 256);
    let again = twice ^ (twice / 65_536) ^ (above / 4_194_304);
    again ^ (again % 4_194_304 * 1024) ^ (again % 256 * 16_777_216)
}

// What stands above 16 bits, as the register that it stands for.
#[tactic(auto, using(crate::proofs::Folding::sixteen))]
fn below_16(above: u16) -> u16
    ensures { result ≡ enter_bits 64 0 (above * 65_536) }
{
    let twice = above ^ (above / 16);
    let again = twice ^ (twice / 256) ^ (above / 2048);
    again ^ (again % 2048 * 32) ^ (again % 16 * 4096)
}

// The register that a wide number stands for.
#[tactic(auto, using(crate::proofs::Folding::in_halves))]
fn register_of(wide: u32) -> u16
    ensures { result ≡ enter_bits 64 0 wide }
{
    below_16((wide / 65_536) as u16) ^ (wide % 65_536) as u16
}

// The bytes ahead of the first whole four, none to three, as a number.
fn number_of(few: &[u8]) -> u32
    requires { length few.now < 4 }
    ensures { enter_bits 64 0 result ≡ all_in enter_byte 0 few.now }
{
    let mut number = 0u32;
    for byte in few {
        number = number * 256 + u32::from(*byte);
    }
    number
}

// The check of a body. No zero byte is fed behind it.
pub fn check_of(body: &[u8]) -> u16
    ensures { result ≡ parcel_check body.now }
{
    let (few, fours) = body.as_rchunks::<4>();
    let mut wide = number_of(few);
    for four in fours {
        wide = below_32(wide) ^ u32::from_be_bytes(*four);
    }
    register_of(wide)
}
