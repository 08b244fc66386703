// What several exported functions share: events, roles, families and the answer of a write, as numbers and small structs by value.

#![tactic(auto)]

mod events;
mod roles;
mod writing;

pub use events::{QuayEvent, event_from};
pub use roles::role_from;
pub use writing::QuayWritten;
