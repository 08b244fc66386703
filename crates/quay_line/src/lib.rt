// The line across: a block fed to a reader whose place goes by value and whose 255 bytes are lent.

#![tactic(auto)]

mod listening;
mod places;

pub use listening::{QuayWent, quay_listen};
pub use places::QuayPlace;
