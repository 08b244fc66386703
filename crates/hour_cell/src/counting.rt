// What a record counts as in the table. What is no settled gross weight without overload, and no refusal, counts for nothing.
ghost use Rattle.std.specs.Prelude.{◌≡◌};
ghost use Rattle.hour_cell.specs.Counting.{by_reading, counts_as};

use codes::Load;
use records::{Record, is_good, kind_of, weight_noted};
use refusal::Refusal;
use weight::{Reading, value_of};

#[derive(Clone, Copy, Debug, PartialEq, Eq)]
pub enum CountsAs {
    Weight(i64), // a settled gross weight without overload: its value in tenths of a milligram
    Met, // a refusal met on the line: a refused record of its cell (`add_refused`)
    Nothing, // a net, unsettled or overloaded weight
}

// A weighing by its kind and its reading. One that does not count is not asked for its value.
#[tactic(auto, unfolding(crate::specs::Counting::by_reading))]
fn by_reading(kind: u8, reading: Reading) -> Result<CountsAs, Refusal>
    ensures { result ≡ by_reading kind reading }
{
    let gross = kind == kind_of(Load::Gross);
    let counts = gross & reading.settled & !reading.overload;
    if !counts {
        return Ok(CountsAs::Nothing);
    }
    let tenths = value_of(reading)?;
    Ok(CountsAs::Weight(tenths))
}

// What a record counts as, or 11. A good record that notes no weight is of kind 3. Behind `records::step` the compiler judges it once.
#[tactic(auto, using(crate::proofs::Counted::ways))]
pub fn counts_as(item: Record) -> Result<CountsAs, Refusal>
    ensures { result ≡ counts_as item }
{
    match weight_noted(item) {
        Ok(reading) => by_reading(item.kind, reading),
        Err(_) if is_good(item) => Ok(CountsAs::Met),
        Err(why) => Err(why),
    }
}
