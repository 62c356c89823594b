// Making and reading the stops, and what is held between them.
ghost use Rattle.std.specs.Prelude.{◌≡◌};
ghost use Rattle.sections.specs.Range.{held};
ghost use Rattle.sections.specs.Made.{Made};
ghost use Rattle.sections.specs.Stroke.{stops_fault};

use crate::stroke::reading::held;
use crate::stroke::{REACH, Stops};
use faults::{RecordFault, Value};

impl Stops {
    // The stops, or the fault of the first one out of range: the lower from -R to R, the upper from the lower to R.
    pub fn new(lower: i32, upper: i32) -> Result<Stops, RecordFault>
        ensures { Made (stops_fault lower upper) result (λ s. (s.lower ≡ lower) × (s.upper ≡ upper)) }
    {
        if !(-REACH..=REACH).contains(&lower) {
            return Err(RecordFault::Value(Value::First));
        }
        if !(lower..=REACH).contains(&upper) {
            return Err(RecordFault::Value(Value::Second));
        }
        Ok(Stops { lower, upper })
    }

    pub fn lower(&self) -> i32
        ensures { result ≡ self.now.lower }
    {
        self.lower
    }

    pub fn upper(&self) -> i32
        ensures { result ≡ self.now.upper }
    {
        self.upper
    }

    // The position that `value` is held to between the stops.
    pub(crate) fn hold(self, value: i64) -> i32
        ensures { result ≡ held self.lower self.upper value }
    {
        held(self.lower as i64, self.upper as i64, value) as i32
    }
}
