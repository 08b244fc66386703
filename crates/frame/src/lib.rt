// The frame: stuffing, the room that a frame needs, and frame writing (01, "The frame").

#![tactic(auto)]

mod writing;

pub use writing::{room_needed, write};
