// The table of messages: for each operation code what its data are, in a request and in a reply (01, "Messages").

#![tactic(auto)]

mod table;

pub use table::{Length, Load, Num, Role, Row, is_among, length_right, row_of};
