// The line: a reader that takes one byte at a time, or a block, and gives events.

#![tactic(auto)]

mod listening;
mod moving;
mod places;
mod reading;

pub use listening::Went;
pub use places::{BodyPlace, Event, Phase, Place, WirePlace};
pub use reading::{Fed, Reader, Taken};
