// What was heard, told line by line, and counted.
ghost use Rattle.std.specs.Prelude.{◌≡◌, length};

use crate::outputs::Cut;
use crate::page::{LONGEST_LINE, Page};
use entries::{Entry, heard_without_check};
use line::Reader;
use listing::{write_line, write_total};
use weight::Family;

// The counts of the listing so far.
#[derive(Clone, Copy, Debug, Default, PartialEq, Eq)]
struct Counts {
    lines: u64,
    weights: u64,
    refused: u64,
}

impl Counts {
    fn add(&mut self, entry: Entry) {
        match entry {
            Entry::Weight(..) => self.weights = self.weights.wrapping_add(1),
            Entry::Message(..) => {}
            Entry::Refused(_) => self.refused = self.refused.wrapping_add(1),
        }
        self.lines = self.lines.wrapping_add(1);
    }
}

// What is known between two blocks of a line of a family.
#[derive(Clone, Copy)]
pub(crate) struct Tally {
    family: Family,
    reader: Reader,
    counts: Counts,
    ghost whole_body: { length reader.body ≡ 255 }, // so that listening goes on
}

// A line of the listing onto the page.
fn tell(number: u64, entry: Entry, page: &mut Page) -> Result<(), Cut> {
    let mut text = [0u8; LONGEST_LINE];
    let written = write_line(number, Some(entry), &mut text);
    page.take(written, &text)
}

impl Tally {
    pub(crate) fn new(family: Family) -> Tally {
        Tally {
            family,
            reader: Reader::new(),
            counts: Counts::default(),
        }
    }

    // Takes a block to its end, event by event. The reader is taken apart once.
    pub(crate) fn list_block(&mut self, block: &[u8], page: &mut Page) -> Result<(), Cut> {
        let Tally {
            family,
            mut reader,
            mut counts,
        } = *self;
        let mut place = reader.place;
        let mut rest = block;
        // Each turn goes on by an event and not by a byte, so there is a measure and no `for`.
        while !rest.is_empty() {
            let went = place.listen(rest, &mut reader.body);
            place = went.place;
            rest = &rest[went.used..];
            if let Some(entry) = heard_without_check(family, true, went.event, &reader.body) {
                counts.add(entry);
                tell(counts.lines, entry, page)?;
            }
        }
        reader.place = place;
        *self = Tally {
            family,
            reader,
            counts,
        };
        Ok(())
    }

    // Whether bytes came and nothing was heard in them: no frame and no refusal.
    fn is_unheard(&self) -> bool {
        self.counts.lines == 0 && self.reader.place.wire.0 != 0
    }

    // Writes the last line, and all that is still on the page. Bytes without a frame are no failure, but they may be no capture. So a note says
    // it, in words that `bin/quay` knows.
    pub(crate) fn tell_total(&self, page: &mut Page) -> Result<(), Cut> {
        let Counts {
            lines,
            weights,
            refused,
        } = self.counts;
        let mut text = [0u8; LONGEST_LINE];
        let written = write_total(lines, weights, refused, &mut text);
        page.take(written, &text)?;
        page.flush()?;
        if self.is_unheard() {
            page.out.say("bytes came, and no frame was among them");
        }
        Ok(())
    }
}
