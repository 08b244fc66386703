// Weights, for C.
ghost use Rattle.std.specs.Prelude.{◌≡◌};
ghost use Rattle.weight.specs.Bytes.{read_of};
ghost use Rattle.quay_weight.specs.Weights.{reading_out, value_out, value_read, difference_read, kilograms_out, kilograms_read};

use quay_weight::{QuayKilograms, QuayReading, QuayValue};
use weight::FourBytes;

// `quay_weight::quay_read_weight`: the reading of four bytes, or 8, also for a family that does not exist. An overloaded one is read: its bytes
// come back, and its value is refused.
#[unsafe(no_mangle)]
pub extern "C" fn quay_read_weight(weight: FourBytes) -> QuayReading
    ensures { result ≡ reading_out (read_of weight) }
{
    quay_weight::quay_read_weight(weight)
}

// `quay_weight::quay_value`: the value of a weight in tenths of a milligram, or 8, and then 24 if it is overloaded.
#[unsafe(no_mangle)]
pub extern "C" fn quay_value(weight: FourBytes) -> QuayValue
    ensures { result ≡ value_out (value_read (read_of weight)) }
{
    quay_weight::quay_value(weight)
}

// `quay_weight::quay_difference`: gross less net in tenths of a milligram, or 8 of either weight, and then 24 of either.
#[unsafe(no_mangle)]
pub extern "C" fn quay_difference(gross: FourBytes, net: FourBytes) -> QuayValue
    ensures { result ≡ value_out (difference_read (read_of gross) (read_of net)) }
{
    quay_weight::quay_difference(gross, net)
}

// `quay_weight::quay_kilograms`: a weight in kilograms as a 64-bit float, or 8, and then 24 if it is overloaded.
#[unsafe(no_mangle)]
pub extern "C" fn quay_kilograms(weight: FourBytes) -> QuayKilograms
    ensures { result ≡ kilograms_out (kilograms_read (read_of weight)) }
{
    quay_weight::quay_kilograms(weight)
}
