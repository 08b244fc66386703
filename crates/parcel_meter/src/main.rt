// bench/run measures with this program what reading the parcel scales' messages costs. It reads one in each piece of 14 bytes of standard input, which a
// weight fills. At the end it tells counts and a sum of all that the messages say. The same work in C tells the same counts and the same sum. In a
// program by itself the compiler has as many registers for it as there are.

#![tactic(auto)]

use blocks::read_full;
use parcel_scale::{Parcel, ParcelWeight, read};
use refusal::Refusal;
use std::io;
use std::io::Read;

const PIECE: usize = 14;

const BLOCK: usize = 56_000;

fn sum_of_weight(told: ParcelWeight) -> u64 {
    let marks = (told.division as u64).wrapping_add(told.stable as u64);
    marks.wrapping_add(told.count.cast_unsigned() as u64)
}

fn sum_of(parcel: Parcel) -> u64 {
    match parcel {
        Parcel::GetWeight => 0xA0,
        Parcel::SetTare(grams) => grams.cast_unsigned() as u64,
        Parcel::GetDeviceId => 0x90,
        Parcel::AckWeight(told) => sum_of_weight(told),
        Parcel::AckCommand => 0x12,
        Parcel::AckDeviceId(serial) => serial as u64,
        Parcel::Nack => 0xF0,
    }
}

#[derive(Clone, Copy, Debug, Default, PartialEq, Eq)]
struct Told {
    good: u64,
    refused: u64,
    sum: u64,
}

impl Told {
    fn add_good(&mut self, answer: u64) {
        self.good = self.good.wrapping_add(1);
        self.sum = self.sum.wrapping_add(answer);
    }

    fn add_refused(&mut self, why: Refusal) {
        self.refused = self.refused.wrapping_add(1);
        self.sum = self.sum.wrapping_add(u8::from(why) as u64);
    }

    fn read_pieces(&mut self, block: &[u8]) {
        for piece in block.chunks_exact(PIECE) {
            match read(piece) {
                Ok((parcel, used)) => self.add_good(sum_of(parcel).wrapping_add(used as u64)),
                Err(why) => self.add_refused(why),
            }
        }
    }
}

// A proved loop has to end, but nothing says that an input ends. So the turns are counted up to a number that no run uses up.
// The meters repeat this loop: a library function over what is done with a block would need a `requires` on it, and no public function has one.
fn read_all(input: &mut impl Read, block: &mut [u8]) -> io::Result<Told> {
    let mut told = Told::default();
    for _ in 0..u64::MAX {
        let count = read_full(input, block)?;
        if count == 0 {
            break;
        }
        told.read_pieces(&block[..count]);
    }
    Ok(told)
}

fn main(rt: HostRuntime) -> io::Result<()> {
    let mut block = [0u8; BLOCK];
    let Told { good, refused, sum } = read_all(&mut rt.stdin(), &mut block)?;
    println!(rt; "good {good} refused {refused} sum {sum}")
}
