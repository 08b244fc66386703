// Numbers of more than one byte, low byte first, as serials, times and counts stand in messages and records; and words as signed numbers.

#![tactic(auto)]

ghost use Rattle.std.specs.Prelude.{◌≡◌, [], ◌∷◌, ◌+◌, ◌*◌};
ghost use Rattle.low_first.specs.LowFirst.{low_first};
ghost use Rattle.low_first.specs.Signed.{signed_of, word_of};

// Four bytes as a number, low byte first.
#[tactic(auto, unfolding(crate::specs::LowFirst::low_first))]
pub fn word(first: u8, second: u8, third: u8, fourth: u8) -> u32
    ensures { result ≡ low_first (first ∷ second ∷ third ∷ fourth ∷ []) }
{
    u32::from_le_bytes([first, second, third, fourth])
}

// Two words as a number, the low one first.
pub fn long(low: u32, high: u32) -> u64
    ensures { result ≡ low + 4_294_967_296 * high }
{
    u64::from(high) * 4_294_967_296 + u64::from(low)
}

// Two bytes as a number, low byte first. Not one function with `word`: each is one call of the library's method of its width.
#[tactic(auto, unfolding(crate::specs::LowFirst::low_first))]
pub fn half(first: u8, second: u8) -> u16
    ensures { result ≡ low_first (first ∷ second ∷ []) }
{
    u16::from_le_bytes([first, second])
}

// The signed number that a word stands for. From 8000 0000h up it is negative.
#[tactic(auto, using(crate::proofs::SignedWords::signed_is))]
pub fn signed(word: u32) -> i32
    ensures { result ≡ signed_of word }
{
    word.cast_signed()
}

// The word of a signed number.
#[tactic(auto, using(crate::proofs::SignedWords::word_is))]
pub fn word_of(number: i32) -> u32
    ensures { result ≡ word_of number }
{
    number.cast_unsigned()
}
