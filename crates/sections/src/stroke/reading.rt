// Maps in range: made from kept numbers after the range test, else rest. And states, in the same way.
ghost use Rattle.std.specs.Prelude.{◌≡◌};
ghost use Rattle.sections.specs.Range.{held};
ghost use Rattle.sections.specs.Stroke.{joined, moved, numbers, read_map, read_state, rest};

use crate::stroke::{Checked, REACH, Stops, StrokeMap};

const TWICE_REACH: i64 = 2_147_483_648;

impl Checked {
    // The map that leaves every position as it is.
    pub(crate) fn rest() -> Checked
        ensures { numbers result ≡ rest }
    {
        Checked {
            add: 0,
            stops: Stops {
                lower: -REACH,
                upper: REACH,
            },
        }
    }

    // The map that kept numbers stand for: themselves in range, else rest. No `From`, which would hide that a map is replaced.
    // One plain test: with `contains`, or with the stops made by `Stops::new`, a join takes 1.3 to 1.7 times as long.
    pub(crate) fn read(map: StrokeMap) -> Checked
        ensures { numbers result ≡ read_map map }
    {
        let StrokeMap { add, low, high } = map;
        if add >= -TWICE_REACH
            && add <= TWICE_REACH
            && low >= -REACH
            && low <= high
            && high <= REACH
        {
            Checked {
                add,
                stops: Stops {
                    lower: low,
                    upper: high,
                },
            }
        } else {
            Checked::rest()
        }
    }

    // The position that the map takes the position `state` to.
    pub(crate) fn moved(self, state: i32) -> i32
        ensures { result ≡ moved (numbers self) state }
    {
        self.stops.hold(state as i64 + self.add)
    }

    // One map with the effect of this one and then `second`.
    pub(crate) fn join(self, second: Checked) -> Checked
        ensures { numbers result ≡ joined (numbers self) (numbers second) }
    {
        Checked {
            add: held(-TWICE_REACH, TWICE_REACH, self.add + second.add),
            stops: Stops {
                lower: second.moved(self.stops.lower),
                upper: second.moved(self.stops.upper),
            },
        }
    }
}

// The numbers to keep.
impl From<Checked> for StrokeMap {
    ghost from_gives = { λ c m. m ≡ numbers c };

    fn from(checked: Checked) -> StrokeMap {
        let Checked { add, stops } = checked;
        StrokeMap {
            add,
            low: stops.lower,
            high: stops.upper,
        }
    }
}

// The state that a kept number stands for: itself in range, else 0.
pub(crate) fn read_state(state: i32) -> i32
    ensures { result ≡ read_state state }
{
    if (-REACH..=REACH).contains(&state) {
        state
    } else {
        0
    }
}

// `value` held to low .. high. By `min` and `max`: what `clamp` gives the compiler does not know to be in range, and tests again.
pub(crate) fn held(low: i64, high: i64, value: i64) -> i64
    ensures { result ≡ held low high value }
{
    high.min(low.max(value))
}
