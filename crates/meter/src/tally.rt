// What a run has counted so far.
ghost use Rattle.std.specs.Prelude.{◌≡◌, length};

use line::Reader;
use refusal::Refusal;

// The bytes of a block: whole bodies of 7 bytes, and whole records of 20.
pub(crate) const BLOCK: usize = 56_000;

#[derive(Clone, Copy, Debug, Default, PartialEq, Eq)]
pub(crate) struct Counts {
    pub(crate) good: u64, // frames, messages or records
    pub(crate) refused: u64,
    pub(crate) sum: u64, // of what was answered, so that no answer goes unused
}

impl Counts {
    pub(crate) fn add_good(&mut self, answer: u64) {
        self.good = self.good.wrapping_add(1);
        self.sum = self.sum.wrapping_add(answer);
    }

    // The paper's number of the refusal goes into the sum beside what else is known of it.
    pub(crate) fn add_refused(&mut self, why: Refusal, answer: u64) {
        self.refused = self.refused.wrapping_add(1);
        self.sum = self
            .sum
            .wrapping_add(answer)
            .wrapping_add(u8::from(why) as u64);
    }

    pub(crate) fn add(&mut self, answered: Result<u64, Refusal>) {
        match answered {
            Ok(answer) => self.add_good(answer),
            Err(why) => self.add_refused(why, 0),
        }
    }
}

#[derive(Clone, Copy)]
pub(crate) struct Tally {
    pub(crate) reader: Reader,
    pub(crate) counts: Counts,
    ghost whole_body: { length reader.body ≡ 255 }, // so that listening goes on
}

impl Tally {
    pub(crate) fn new() -> Tally {
        Tally {
            reader: Reader::new(),
            counts: Counts::default(),
        }
    }
}
