// The messages of the paper's table, in both roles: read from a lent body, and written into lent room.

#![tactic(auto)]

mod reading;
mod writing;

pub use reading::{Message, read, read_without_check};
pub use writing::write;
