// The messages of the parcel scales at the foot desk (02, request 5; document 003): read from lent bytes, written into lent room, and the value
// of a weight. A tare keeps its sign. A tare of 0 takes the weight that stands on the scale as tare; it does not clear the tare.

#![tactic(auto)]

mod parcels;
mod reading;
mod value;
mod writing;

pub use parcels::{Parcel, ParcelWeight};
pub use reading::read;
pub use value::value_of;
pub use writing::write;
