// The pieces of a line, each put ahead of what stands.
ghost use Rattle.std.specs.Prelude.{◌≡◌, [], ◌∷◌, ◌++◌, ◌+◌, length};
ghost use Rattle.listing.specs.Writing.{HasRoom};
ghost use Rattle.listing.specs.Texts.{spelt, decimal, hex_byte, address_text, sign_byte, mark_byte};
ghost use Rattle.listing.specs.Lines.{rest, load_text, mode_fields, mark_fields, digits_field, reading_fields};

use crate::assembly::Line;
use body::Address;
use codes::Load;
use weight::{Family, Reading};

fn sign_byte(minus: bool) -> u8
    ensures { result ≡ sign_byte minus }
{
    if minus { b'-' } else { b'+' }
}

fn mark_byte(mark: bool) -> u8
    ensures { result ≡ mark_byte mark }
{
    if mark { b'1' } else { b'0' }
}

// What bit 5 says by the family, and the end of the line. A plain reading has no such field.
fn mode_word(reading: Reading) -> &'static [u8]
    ensures { result.now ≡ rest (mode_fields reading) }
{
    match (reading.family, reading.bit5) {
        (Family::Plain, _) => b"\n",
        (Family::Of000 | Family::Of002, true) => b" net\n",
        (Family::Of000 | Family::Of002, false) => b" gross\n",
        (Family::Of001, true) => b" scale1\n",
        (Family::Of001, false) => b" scale0\n",
    }
}

impl Line {
    // A word and a number.
    #[tactic(auto, using(crate::proofs::Lengths::sizes))]
    pub(crate) fn put_counted(&mut self, word: &[u8], number: u64)
        requires { HasRoom (length word.now + 20) self.old }
        ensures { self.new ≡ word.now ++ (decimal number ++ self.old) }
    {
        self.put_decimal(number);
        self.put(word);
    }

    // An address in decimal, or `0:` and the serial.
    pub(crate) fn put_address(&mut self, address: Address)
        requires { HasRoom 22 self.old }
        ensures { self.new ≡ address_text address ++ self.old }
    {
        match address {
            Address::Short(short) => self.put_decimal(short as u64),
            Address::Serial(serial) => self.put_counted(b"0:", serial as u64),
        }
    }

    // The words of a weight line.
    pub(crate) fn put_load(&mut self, load: Load)
        requires { HasRoom 14 self.old }
        ensures { self.new ≡ spelt " weight " ++ (load_text load ++ (spelt " " ++ self.old)) }
    {
        match load {
            Load::Net => self.put(b" weight net "),
            Load::Gross => self.put(b" weight gross "),
        }
    }

    // Point, settled, overload, the mode, and the end of the line.
    #[tactic(auto, using(crate::proofs::Lengths::sizes))]
    fn put_marks(&mut self, reading: Reading)
        requires { HasRoom 14 self.old }
        ensures { self.new ≡ rest (mark_fields reading) ++ self.old }
    {
        let settled = mark_byte(reading.settled);
        let overload = mark_byte(reading.overload);
        self.put(mode_word(reading));
        self.put(&[b' ', settled, b' ', overload]);
        self.put_digits::<10, 1>(reading.point as u64);
        self.put(b" ");
    }

    // Six digits, or six hyphens: an overloaded bridge has no weight (02, request 7).
    fn put_shown(&mut self, reading: Reading)
        requires { HasRoom 6 self.old }
        ensures { self.new ≡ digits_field reading ++ self.old }
    {
        if reading.overload {
            return self.put(b"------");
        }
        self.put_digits::<10, 6>(reading.number as u64);
    }

    // A reading, and the end of the line.
    #[tactic(auto, using(crate::proofs::Lengths::sizes))]
    pub(crate) fn put_reading(&mut self, reading: Reading)
        requires { HasRoom 23 self.old }
        ensures { self.new ≡ rest (reading_fields reading) ++ self.old }
    {
        self.put_marks(reading);
        self.put_shown(reading);
        self.put(&[b' ', sign_byte(reading.minus), b' ']);
    }

    // A code in two capital hex digits, and the end of the line.
    pub(crate) fn put_code(&mut self, code: u8)
        requires { HasRoom 4 self.old }
        ensures { self.new ≡ rest (hex_byte code ∷ []) ++ self.old }
    {
        self.put(b"\n");
        self.put_digits::<16, 2>(code as u64);
        self.put(b" ");
    }
}
