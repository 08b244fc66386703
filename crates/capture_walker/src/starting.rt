// Where the next body starts, which the whole block at hand tells quickly; how much of the block it can need; and where a walk stands there.
ghost use Rattle.std.specs.Prelude.{◌≡◌, ◌<◌, ◌≤◌, length, take, slice_index};
ghost use Rattle.capture_walker.specs.Scanning.{delimited_at, starts_body, NextBody, longest_on_wire};

use line::{BodyPlace, Phase, Place, WirePlace};

const DELIMITER: u8 = 0xFF;

const INSERTED: u8 = 0xFE;

// A body's 255 bytes, each an FF with its FE, and the two FFs behind it.
const LONGEST_ON_WIRE: usize = 512;

// "Delimited if the byte before the place is FF and Seeking otherwise"; at place 0 a fresh reader seeks.
fn is_delimited(block: &[u8], place: usize) -> bool
    requires { place ≤ length block.now }
    ensures { result ≡ delimited_at block.now place }
{
    place != 0 && block[place - 1] == DELIMITER
}

// Delimited: "FF stays, FE goes back to Seeking, any other byte starts a body". Seeking starts none.
fn starts_body(block: &[u8], place: usize) -> bool
    requires { place < length block.now }
    ensures { result ≡ starts_body (delimited_at block.now place) (slice_index block.now place) }
{
    let byte = block[place];
    is_delimited(block, place) && byte != DELIMITER && byte != INSERTED
}

// The first byte of the next body, if one starts in the rest of the block. Nothing is heard and nothing kept of the bytes ahead of it, so the step
// from there is the step from here.
#[tactic(auto, using(crate::proofs::Scan::passed))]
pub(crate) fn next_body(block: &[u8], from: usize) -> Option<usize>
    ensures { NextBody block.now from result }
{
    for at in from..block.len() {
        if starts_body(block, at) {
            return Some(at);
        }
    }
    None
}

// As many bytes as can be needed from a body's first byte to its event: a listener who is told how far it is has less to look at.
#[tactic(auto, using(std::proofs::lemmas::List::take_min))]
pub(crate) fn reach(rest: &[u8]) -> &[u8]
    ensures { result.now ≡ take longest_on_wire rest.now }
{
    &rest[..LONGEST_ON_WIRE.min(rest.len())]
}

// Where a body starts: it is open, and nothing of it is kept yet. Its first byte, no FF and no FE, is kept there as it is behind a delimiter, and
// `listen` begins in the state in which it goes on: begun in Delimited, walking frames of ten bytes took 1.7 times as long.
pub(crate) fn body_open(start: usize) -> Place
    ensures { result ≡ record { phase = Phase.Inside; wire = record { 0 = start }; kept = record { 0 = 0 } } }
{
    Place {
        phase: Phase::Inside,
        wire: WirePlace(start as u64),
        kept: BodyPlace(0),
    }
}
