// Messages across: read from a lent body, and frames and messages written into lent room.

#![tactic(auto)]

mod addresses;
mod messages;
mod writing;

pub use messages::{QuayMessage, QuayWhat, quay_read_message};
pub use writing::{quay_write_frame, quay_write_message};
