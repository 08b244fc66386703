// The listing: the line of an entry as text in lent room, and the total line (01, "Judged examples").

#![tactic(auto)]

mod assembly;
mod pieces;
mod writing;

pub use writing::{write_line, write_total};
