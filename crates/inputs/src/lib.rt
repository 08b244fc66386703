// The 32 inputs of a terminal (code C4): how many are on.

#![tactic(auto)]

ghost use Rattle.std.specs.Prelude.{◌≡◌};
ghost use Rattle.inputs.specs.On.{inputs_on};

// How many of the 32 inputs are on, given the four bytes of the reply in the order of the wire.
#[tactic(auto, using(crate::proofs::Bits::word_bits))]
pub fn count_on(first: u8, second: u8, third: u8, fourth: u8) -> u32
    ensures { result ≡ inputs_on first second third fourth }
{
    u32::from_le_bytes([first, second, third, fourth]).count_ones()
}
