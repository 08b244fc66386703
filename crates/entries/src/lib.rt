// What an event lists as: a weight, another message, or a refusal (01, "Judged examples").

#![tactic(auto)]

mod entries;

pub use entries::{Entry, entry_of, heard, heard_without_check};
