// The weight in kilograms as a 64-bit float, for the model (01, "Weight").

#![tactic(auto)]

ghost use Rattle.std.specs.Prelude.{◌≡◌};
ghost use Rattle.kilograms.specs.Rounded.{kilograms_of};

use refusal::Refusal;
use weight::Reading;

// Tenths of a milligram in a kilogram.
const TENTHS: f64 = 10000000.0;

// The value of a reading over 10,000,000, rounded once; or the value's refusal, 8 or 24: an overloaded bridge has no weight (02, request 7).
#[tactic(auto, unfolding(crate::specs::Rounded::kilograms_of), using(crate::proofs::Quotient::reading_castable, crate::proofs::Quotient::reading_quotient))]
pub fn kilograms_of(reading: Reading) -> Result<f64, Refusal>
    ensures { result ≡ kilograms_of reading }
{
    let tenths = weight::value_of(reading)?;
    Ok(tenths as f64 / TENTHS)
}
