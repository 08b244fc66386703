// The answer of a write as numbers.
ghost use Rattle.std.specs.Prelude.{◌≡◌};
ghost use Rattle.crossing.specs.Writing.{written_out};

use refusal::Refusal;

// What a write answers: its own length, or length 0 beside the refusal's number. A refused write leaves every lent byte as it stood.
// A length with a refusal's number beside: C has no `Result`, and this struct's layout is its interface.
#[repr(C)]
#[derive(Clone, Copy, Debug, PartialEq, Eq)]
pub struct QuayWritten {
    pub length: usize,
    pub refusal: u8,
}

impl From<Result<usize, Refusal>> for QuayWritten {
    ghost from_gives = { λ written answered. answered ≡ written_out written };

    fn from(written: Result<usize, Refusal>) -> QuayWritten {
        match written {
            Ok(length) => QuayWritten { length, refusal: 0 },
            Err(why) => QuayWritten {
                length: 0,
                refusal: u8::from(why),
            },
        }
    }
}
