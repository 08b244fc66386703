// A line as it is put together, from its end, since division gives the last digit of a number first.
ghost use Rattle.std.specs.Prelude.{◌≡◌, ℕ, List, [], ◌∷◌, ◌++◌, ◌≤◌, ◌<◌, length, drop};
ghost use Rattle.listing.specs.Writing.{HasRoom};
ghost use Rattle.listing.specs.Texts.{digit, digits, decimal};

use std::marker::Model;

// The longest line: a total of three numbers of 20 digits. A weight line has at most 69 bytes.
const LONGEST_LINE: usize = 85;

// The bytes that stand so far, at the end of an array of our own. Each piece is put ahead of them.
// `at` lies ahead of the array and is no `usize`: so LLVM sees that no byte put there changes it, and keeps it in a register.
#[derive(Drop)]
pub(crate) struct Line {
    at: u32,
    text: [u8; LONGEST_LINE],
}

impl Model for Line {
    ghost Value = { List ℕ };

    ghost view = { λ l. drop l.at l.text };

    ghost invariant = { λ l. l.at ≤ 85 };
}

// The byte of a digit: 0 to 9, and then the capital letters A to F.
pub(crate) fn digit(value: u64) -> u8
    requires { value < 16 }
    ensures { result ≡ digit value }
{
    if value < 10 {
        return b'0' + value as u8;
    }
    b'A' - 10 + value as u8
}

impl Line {
    pub(crate) fn new() -> Self
        ensures { result ≡ [] }
    {
        Line {
            at: LONGEST_LINE as u32,
            text: [0; LONGEST_LINE],
        }
    }

    pub(crate) fn bytes(&self) -> &[u8]
        ensures { result.now ≡ self.now }
    {
        &self.text[self.at as usize..]
    }

    fn put_byte(&mut self, byte: u8)
        requires { HasRoom 1 self.old }
        ensures { self.new ≡ byte ∷ self.old }
    {
        self.at -= 1;
        self.text[self.at as usize] = byte;
    }

    // Bytes as they are.
    pub(crate) fn put(&mut self, piece: &[u8])
        requires { HasRoom (length piece.now) self.old }
        ensures { self.new ≡ piece.now ++ self.old }
    {
        let behind = self.at as usize;
        self.at -= piece.len() as u32;
        self.text[self.at as usize..behind].copy_from_slice(piece);
    }

    // A number in decimal, without leading zeros. Two digits a turn: each turn divides what the one before left, so half as many wait.
    pub(crate) fn put_decimal(&mut self, number: u64)
        requires { HasRoom 20 self.old }
        ensures { self.new ≡ decimal number ++ self.old }
    {
        let mut left = number;
        while 100 <= left {
            let tens = left / 10;
            self.put_byte(digit(left % 10));
            self.put_byte(digit(tens % 10));
            left = tens / 10;
        }
        if left < 10 {
            return self.put_byte(digit(left));
        }
        self.put_byte(digit(left % 10));
        self.put_byte(digit(left / 10));
    }

    // The last digits of a number in a base, as many as are asked.
    pub(crate) fn put_digits<const BASE: u64, const WIDTH: usize>(&mut self, number: u64)
        requires base { (0 < BASE) × (BASE ≤ 16) }
        requires room { HasRoom WIDTH self.old }
        ensures { self.new ≡ digits BASE WIDTH number ++ self.old }
    {
        let mut left = number;
        for i in 0..WIDTH {
            self.put_byte(digit(left % BASE));
            left /= BASE;
        }
    }
}
