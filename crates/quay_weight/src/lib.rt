// Weights across: four bytes in; a reading, a value, a difference or kilograms out.

#![tactic(auto)]

mod weights;

pub use weights::{
    QuayKilograms, QuayReading, QuayValue, quay_difference, quay_kilograms, quay_read_weight,
    quay_value,
};
