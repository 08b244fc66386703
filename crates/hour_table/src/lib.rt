// The table of weekdays and hours, and records into it: one, or a whole log (02, request 6).

#![tactic(auto)]

mod filled;
mod filling;
mod tables;

pub use filled::{Filled, table_of};
pub use filling::{enter, fill};
pub use tables::empty_table;
