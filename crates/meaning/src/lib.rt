// What code and data say by the paper's table (01, "Messages"). They are judged 6, 7, 8. Then they give numbers, a reading, or a text's place.

#![tactic(auto)]

mod meaning;

pub use meaning::{SaidWeight, What, tell, weight_said};
