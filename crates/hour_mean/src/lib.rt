// The mean of a cell: a fraction in lowest terms, or "no readings", and never a zero for what was not heard (02, request 6).

#![tactic(auto)]

ghost use Rattle.std.specs.Prelude.{◌≡◌, ◌<◌};
ghost use Rattle.hour_mean.specs.Means.{greatest_common, lowest, mean_of};

use hour_cell::{Cell, is_sound, size_of};
use refusal::Refusal;

// An exact mean, in tenths of a milligram.
#[derive(Clone, Copy, Debug, PartialEq, Eq)]
pub struct Fraction {
    pub upper: i64,
    pub lower: i64, // 1 to 65,535
}

// The greatest number that divides both, by Euclid as a recursion, the form that is expected here: the remainder falls.
fn common(size: u64, count: u64) -> u64
    requires { 0 < count }
    ensures { result ≡ greatest_common size count }
{
    let left = size % count;
    if left == 0 {
        return count;
    }
    common(count, left)
}

// A sum over a count that is not 0, in lowest terms.
fn lowest_terms(sum: i64, count: u16) -> Fraction
    requires { 0 < count }
    ensures { result ≡ lowest sum count }
{
    let shared = common(size_of(sum), u64::from(count)) as i64;
    Fraction {
        upper: sum / shared,
        lower: i64::from(count) / shared,
    }
}

// The mean of a cell. Judged 31; a cell with no weights has no mean.
#[tactic(auto, unfolding(crate::specs::Means::mean_of))]
pub fn mean_of(cell: Cell) -> Result<Option<Fraction>, Refusal>
    ensures { result ≡ mean_of cell }
{
    if !is_sound(cell) {
        return Err(Refusal::SumBeyond);
    }
    if cell.weights == 0 {
        return Ok(None);
    }
    let mean = lowest_terms(cell.sum, cell.weights);
    Ok(Some(mean))
}
