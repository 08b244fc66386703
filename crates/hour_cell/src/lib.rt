// One record and its cell of the weekday and hour table: which cell it belongs to, what it counts as, and the cell with it (02, request 6).

#![tactic(auto)]

mod adding;
mod cells;
mod counting;
mod slots;

pub use adding::{add_refused, add_weight};
pub use cells::{Cell, is_sound, size_of};
pub use counting::{CountsAs, counts_as};
pub use slots::{Slot, slot_of};
