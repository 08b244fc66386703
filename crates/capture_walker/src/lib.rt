// A whole capture, walked event by event without feeding bytes (02, request 2).

#![tactic(auto)]

mod starting;
mod stepping;
mod walking;

pub use stepping::{Stepped, step_from};
pub use walking::{Walked, Walker};
