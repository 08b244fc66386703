// What filling a table answers.
ghost use Rattle.std.specs.Prelude.{◌≡◌};
ghost use Rattle.hour_table.specs.Filling.{table_in};

use hour_cell::Cell;
use refusal::Refusal;

// The table after the records that went in, how many they are, and the refusal that stopped it, if one did. Look at the verdict first: behind a refusal
// the rest of the log is not in the table.
#[derive(Clone, Copy, Debug, PartialEq, Eq)]
pub struct Filled {
    pub table: [[Cell; 24]; 7],
    pub records: usize,
    pub verdict: Result<(), Refusal>,
}

// The table of an answer, to be filled further.
#[tactic(auto, unfolding(crate::specs::Filling::table_in))]
pub fn table_of(filled: Filled) -> [[Cell; 24]; 7]
    ensures { result ≡ table_in filled }
{
    filled.table
}
