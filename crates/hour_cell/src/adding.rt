// A cell with one weight or one refused record more. A refusal has no cell: the lent one stays.
ghost use Rattle.std.specs.Prelude.{◌≡◌};
ghost use Rattle.hour_cell.specs.Cells.{with_weight, with_refused};

use crate::cells::{Cell, LARGEST, is_sound, size_of};
use refusal::Refusal;

// One weight more, by its value. Judged 31, 8 for a value that no weight has, 23 where the count would pass 65,535.
#[tactic(auto, unfolding(crate::specs::Cells::with_weight))]
pub fn add_weight(tenths: i64, cell: Cell) -> Result<Cell, Refusal>
    ensures { result ≡ with_weight tenths cell }
{
    if !is_sound(cell) {
        return Err(Refusal::SumBeyond);
    }
    if LARGEST < size_of(tenths) {
        return Err(Refusal::FieldOutside);
    }
    let weights = cell.weights.checked_add(1).ok_or(Refusal::CountFull)?;
    let sum = cell.sum + tenths;
    Ok(Cell {
        weights,
        sum,
        ..cell
    })
}

// One refused record more. Judged 31, 23 where the count would pass 65,535.
#[tactic(auto, unfolding(crate::specs::Cells::with_refused))]
pub fn add_refused(cell: Cell) -> Result<Cell, Refusal>
    ensures { result ≡ with_refused cell }
{
    if !is_sound(cell) {
        return Err(Refusal::SumBeyond);
    }
    let refused = cell.refused.checked_add(1).ok_or(Refusal::CountFull)?;
    Ok(Cell { refused, ..cell })
}
