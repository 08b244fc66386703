// bench/run measures with this program what walking costs. It takes standard input as one block (as several, if there are more than 56,000
// bytes) and walks each from its start. At the end it tells counts and a sum: of one block those that crates/meter tells of the same bytes, heard by
// `listen`.

#![tactic(auto)]

use blocks::read_full;
use capture_walker::{Stepped, step_from};
use line::{BodyPlace, Event, WirePlace};
use refusal::Refusal;
use std::io;
use std::io::Read;

const BLOCK: usize = 56_000;

#[derive(Clone, Copy, Debug, Default, PartialEq, Eq)]
struct Told {
    frames: u64,
    refused: u64,
    sum: u64, // of both places of each event and the number of a refusal
}

fn places(wire: WirePlace, kept: BodyPlace) -> u64 {
    wire.0.wrapping_add(kept.0 as u64)
}

impl Told {
    fn add_frame(&mut self, places: u64) {
        self.frames = self.frames.wrapping_add(1);
        self.sum = self.sum.wrapping_add(places);
    }

    fn add_refused(&mut self, why: Refusal, places: u64) {
        self.refused = self.refused.wrapping_add(1);
        self.sum = self
            .sum
            .wrapping_add(places)
            .wrapping_add(u8::from(why) as u64);
    }

    fn add(&mut self, event: Event) {
        match event {
            Event::Frame(wire, kept) => self.add_frame(places(wire, kept)),
            Event::Refused(why, wire, kept) => self.add_refused(why, places(wire, kept)),
        }
    }

    // Walks a block from its start to its end.
    fn walk(&mut self, block: &[u8]) {
        let mut body = [0u8; 255];
        let mut place = 0;
        loop {
            let Stepped {
                next,
                place: behind,
            } = step_from(block, place, &mut body);
            let Some(event) = next else {
                return;
            };
            self.add(event);
            place = behind;
        }
    }
}

// A proved loop has to end, but nothing says that an input ends. So the turns are counted up to a number that no run uses up.
// The meters repeat this loop: a library function over what is done with a block would need a `requires` on it, and no public function has one.
fn walk_all(input: &mut impl Read, block: &mut [u8]) -> io::Result<Told> {
    let mut told = Told::default();
    for _ in 0..u64::MAX {
        let count = read_full(input, block)?;
        if count == 0 {
            break;
        }
        told.walk(&block[..count]);
    }
    Ok(told)
}

fn main(rt: HostRuntime) -> io::Result<()> {
    let mut block = [0u8; BLOCK];
    let Told {
        frames,
        refused,
        sum,
    } = walk_all(&mut rt.stdin(), &mut block)?;
    println!(rt; "good {frames} refused {refused} sum {sum}")
}
