// The body: what an address is, what a body is, how a body is judged, and where each part stands in it (01, "The frame").

#![tactic(auto)]

mod addresses;
mod bodies;

pub use addresses::{Address, first_byte, legal, serial_of};
pub use bodies::{
    LONGEST_BODY, Parts, address_length, check_right, judge, open, open_without_check,
};
