// A cell of the table, and the rule that its sum must keep.
ghost use Rattle.std.specs.Prelude.{◌≡◌, nat_abs};
ghost use Rattle.hour_cell.specs.Cells.{sound};

// The largest value of a weight, in tenths of a milligram.
pub(crate) const LARGEST: u64 = 9_999_990_000_000;

// What was noted in an hour of a weekday. Where the count of weights is 0 no weight was heard that counts, and the sum says nothing: `hour_mean`
// answers "no readings" then. Lorries may have stood there: `refused` tells what came and could not be read, an overloaded lorry stands in neither
// count, and silence leaves no record.
#[derive(Clone, Copy, Debug, PartialEq, Eq)]
pub struct Cell {
    pub weights: u16, // settled gross weights without overload
    pub refused: u16, // records of a refusal met on the line
    pub sum: i64, // of the weights, in tenths of a milligram; 0 also where there are none
}

// A sum, sign aside.
pub fn size_of(sum: i64) -> u64
    ensures { result ≡ nat_abs sum }
{
    sum.unsigned_abs()
}

// Whether so many weights can have such a sum; if not, it is refusal 31.
#[tactic(auto, unfolding(crate::specs::Cells::sound))]
pub fn is_sound(cell: Cell) -> bool
    ensures { result ≡ sound cell }
{
    let most = u64::from(cell.weights) * LARGEST;
    size_of(cell.sum) <= most
}
