// bench/run measures with this program what looking for a bad bit costs. Each piece of 32 bytes of standard input has a length and a body of at most 31
// bytes: of one fixed length the compiler would make another program. At the end it tells how many had a bit that would do, how many had none or were
// refused, and a sum of places and refusals. The same work in C tells the same.

#![tactic(auto)]

use bad_bit::{BitPlace, find};
use blocks::read_full;
use refusal::Refusal;
use room::front;
use std::io;
use std::io::Read;

const PIECE: usize = 32;

const BLOCK: usize = 56_000;

// The body of a piece: as many bytes as its first one says, or all that are left.
fn find_in_piece(piece: &[u8]) -> Result<Option<BitPlace>, Refusal> {
    let Some((length, rest)) = piece.split_first() else {
        return find(piece);
    };
    find(front(rest, *length as usize))
}

#[derive(Clone, Copy, Debug, Default, PartialEq, Eq)]
struct Told {
    good: u64,
    refused: u64,
    sum: u64,
}

impl Told {
    fn add_good(&mut self, place: usize) {
        self.good = self.good.wrapping_add(1);
        self.sum = self.sum.wrapping_add(place as u64);
    }

    fn add_refused(&mut self, number: u8) {
        self.refused = self.refused.wrapping_add(1);
        self.sum = self.sum.wrapping_add(number as u64);
    }

    fn find_in_pieces(&mut self, block: &[u8]) {
        for piece in block.chunks_exact(PIECE) {
            match find_in_piece(piece) {
                Ok(Some(place)) => self.add_good(place.0),
                Ok(None) => self.add_refused(0),
                Err(why) => self.add_refused(u8::from(why)),
            }
        }
    }
}

// A proved loop has to end, but nothing says that an input ends. So the turns are counted up to a number that no run uses up.
// The meters repeat this loop: a library function over what is done with a block would need a `requires` on it, and no public function has one.
fn find_all(input: &mut impl Read, block: &mut [u8]) -> io::Result<Told> {
    let mut told = Told::default();
    for _ in 0..u64::MAX {
        let count = read_full(input, block)?;
        if count == 0 {
            break;
        }
        told.find_in_pieces(&block[..count]);
    }
    Ok(told)
}

fn main(rt: HostRuntime) -> io::Result<()> {
    let mut block = [0u8; BLOCK];
    let Told { good, refused, sum } = find_all(&mut rt.stdin(), &mut block)?;
    println!(rt; "good {good} refused {refused} sum {sum}")
}
