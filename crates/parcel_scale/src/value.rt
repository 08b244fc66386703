// The value of a weight, in tenths of a milligram.
ghost use Rattle.std.specs.Prelude.{◌≡◌, ◌&&◌, leb, ◌≤◌};
ghost use Rattle.parcel_scale.specs.Value.{division_of, parcel_value};

use crate::parcels::ParcelWeight;
use refusal::Refusal;

// The highest code of a division, 1 kg, and the highest stable mark.
const HIGHEST_DIVISION: u8 = 4;

const HIGHEST_STABLE: u8 = 1;

// Whether division and stable mark have values that they may have. A count may have any.
pub(crate) fn marks_legal(told: ParcelWeight) -> bool
    ensures { result ≡ (leb told.division 4 && leb told.stable 1) }
{
    told.division <= HIGHEST_DIVISION && told.stable <= HIGHEST_STABLE
}

// The divisions 100 mg, 1 g, 10 g, 100 g, 1 kg, in tenths of a milligram. It stays a table: by the library's `pow` the value of a weight took three
// times the time.
const DIVISIONS: [u64; 5] = [1_000, 10_000, 100_000, 1_000_000, 10_000_000];

#[tactic(auto, using(crate::proofs::Values::division_at, crate::proofs::Values::division_most))]
fn division_of(code: u8) -> u64
    requires { code ≤ 4 }
    ensures value { result ≡ division_of code }
    ensures small { result ≤ 10_000_000 }
{
    DIVISIONS[usize::from(code)]
}

// The value of a weight. 8 for a division or a stable mark outside its values.
#[tactic(auto, unfolding(crate::specs::Value::parcel_value), using(crate::proofs::Values::value_fits, crate::proofs::Values::value_made, crate::proofs::Values::marks_decide))]
pub fn value_of(told: ParcelWeight) -> Result<i64, Refusal>
    ensures { result ≡ parcel_value told }
{
    if !marks_legal(told) {
        return Err(Refusal::FieldOutside);
    }
    let division = division_of(told.division).cast_signed();
    Ok(i64::from(told.count) * division)
}
