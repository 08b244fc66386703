// The listing across: events as lines of text, and the total line.

#![tactic(auto)]

mod lines;

pub use lines::{QuayListed, quay_list_event, quay_list_total};
