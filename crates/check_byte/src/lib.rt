// The check byte ("The frame", Check): a register of eight bits that bytes enter top bit first. A single byte enters by two tables of 16 entries:
// a constant array is stored to the stack where it is read, and one of 256 costs a short body more than it saves. A slice enters four bytes at a go.
//
// A wide number stands for the register that its bits make of an empty one. Under 169h sixteen zero bits make of a register what one makes
// of it, with the register itself folded in. So thirty-two make of it what two make of it, with the register itself folded in. That is how
// what stands above 16 or 32 bits of a wide number is folded in below.

#![tactic(auto)]

ghost use Rattle.std.specs.Prelude.{◌≡◌, length, ◌<◌, ◌+◌, ◌*◌, ◌/◌, ◌%◌};
ghost use Rattle.check_byte.specs.Register.{feed_bits, feed_byte, feed_all, check_of};
ghost use Rattle.std.specs.Int.Bits.{bit_xor};

// What a zero byte makes of a register whose high half is 0, for each low half.
const LOW_HALF: [u8; 16] = [
    0x00, 0x69, 0xD2, 0xBB, 0xCD, 0xA4, 0x1F, 0x76, 0xF3, 0x9A, 0x21, 0x48, 0x3E, 0x57, 0xEC, 0x85,
];

// What a zero byte makes of a register whose low half is 0, for each high half.
const HIGH_HALF: [u8; 16] = [
    0x00, 0x8F, 0x77, 0xF8, 0xEE, 0x61, 0x99, 0x16, 0xB5, 0x3A, 0xC2, 0x4D, 0x5B, 0xD4, 0x2C, 0xA3,
];

// One byte into the register, top bit first. The two halves of the register fall out, and what they fold in meets the byte.
pub fn feed(register: u8, byte: u8) -> u8
    ensures { result ≡ feed_byte register byte }
{
    let low = usize::from(register % 16);
    let high = usize::from(register / 16);
    LOW_HALF[low] ^ HIGH_HALF[high] ^ byte
}

// What stands above 32 bits is folded in below.
fn fold_32(wide: u64) -> u64
    ensures { result ≡ bit_xor (bit_xor (wide % 4_294_967_296) (wide / 4_294_967_296)) (wide / 4_294_967_296 * 4) }
{
    let above = wide / 4_294_967_296;
    (wide % 4_294_967_296) ^ above ^ (above * 4)
}

// What stands above 16 bits is folded in below. Not one function with `fold_32`: a trait over the two widths would be longer than this line of work.
fn fold_16(wide: u32) -> u32
    ensures { result ≡ bit_xor (bit_xor (wide % 65_536) (wide / 65_536)) (wide / 65_536 * 2) }
{
    let above = wide / 65_536;
    (wide % 65_536) ^ above ^ (above * 2)
}

// One byte comes to stand behind a number that has room for it.
fn enter(wide: u32, byte: u8) -> u32
    requires { wide < 16_777_216 }
    ensures { result ≡ wide * 256 + byte }
{
    wide * 256 + u32::from(byte)
}

// Four bytes come to stand behind a wide number. Folded once it has 34 bits, folded twice 32.
fn enter_four(wide: u32, four: u32) -> u32
    ensures { feed_bits 64 0 result ≡ feed_bits 64 0 (wide * 4_294_967_296 + four) }
{
    fold_32(fold_32(u64::from(wide) * 4_294_967_296 + u64::from(four))) as u32
}

// The register that a wide number stands for.
fn register_of(wide: u32) -> u8
    ensures { result ≡ feed_bits 64 0 wide }
{
    let folded = fold_16(fold_16(wide));
    feed((folded / 256) as u8, (folded % 256) as u8)
}

// The bytes ahead of the first whole four, none to three, behind the register: they fill 32 bits at most, so nothing is folded for them.
fn enter_few(register: u8, few: &[u8]) -> u32
    requires { length few.now < 4 }
    ensures { feed_bits 64 0 result ≡ feed_all register few.now }
{
    let mut wide = u32::from(register);
    for byte in few {
        wide = enter(wide, *byte);
    }
    wide
}

// All bytes of a slice into the register, in order.
#[tactic(auto, using(crate::proofs::Fronts::front_in))]
pub fn feed_all(register: u8, bytes: &[u8]) -> u8
    ensures { result ≡ feed_all register bytes.now }
{
    let (few, fours) = bytes.as_rchunks::<4>();
    let mut wide = enter_few(register, few);
    for four in fours {
        wide = enter_four(wide, u32::from_be_bytes(*four));
    }
    register_of(wide)
}

// The check of the bytes to be sent. All of them are fed, and then one zero byte.
#[tactic(auto, unfolding(crate::specs::Register::check_of))]
pub fn check_of(bytes: &[u8]) -> u8
    ensures { result ≡ check_of bytes.now }
{
    feed(feed_all(0, bytes), 0)
}
