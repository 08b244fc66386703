// Seven rows of twenty-four cells. The first row is Monday's, the first cell of a row that of its midnight.
ghost use Rattle.std.specs.Prelude.{◌≡◌};
ghost use Rattle.hour_table.specs.Tables.{empty_table, sound_row, sound_table};

use hour_cell::{Cell, is_sound};

// A table in which nothing was heard yet.
#[tactic(auto, unfolding(crate::specs::Tables::empty_table))]
pub fn empty_table() -> [[Cell; 24]; 7]
    ensures { result ≡ empty_table }
{
    let nothing = Cell {
        weights: 0,
        refused: 0,
        sum: 0,
    };
    [[nothing; 24]; 7]
}

// Whether every cell of a day is sound.
fn is_sound_row(row: &[Cell; 24]) -> bool
    ensures { result ≡ sound_row row.now }
{
    row.iter().all(|cell| is_sound(*cell))
}

// Whether every cell is sound; if not, it is refusal 31.
pub(crate) fn is_sound_table(table: &[[Cell; 24]; 7]) -> bool
    ensures { result ≡ sound_table table.now }
{
    table.iter().all(|row| is_sound_row(row))
}
