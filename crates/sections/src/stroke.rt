// The stroke integrator's types: the stops, the map as it is kept, and the map that is known to be in range.
// The calls on them are below, in `limits`, `reading` and `integrator`.
ghost use Rattle.std.specs.Prelude.{◌^◌, pos, neg_ℤ, ◌≤ℤ◌};

mod integrator;
mod limits;
mod reading;

// The section: a sum of signed words, held between two stops.
pub struct Stroke;

// The largest position, R. States, stops and the bounds of maps are from -R to R.
pub const REACH: i32 = 1_073_741_824;

// The lower and the upper stop.
#[derive(Clone, Copy)]
pub struct Stops {
    lower: i32,
    upper: i32,
    ghost lower_from: { neg_ℤ (pos (2 ^ 30)) ≤ℤ lower },
    ghost lower_to: { lower ≤ℤ upper },
    ghost upper_to: { upper ≤ℤ pos (2 ^ 30) },
}

// A map as it is kept, in plain numbers: it takes s to min(high, max(low, s + add)).
#[derive(Clone, Copy)]
pub struct StrokeMap {
    pub add: i64,
    pub low: i32,
    pub high: i32,
}

// A map whose numbers are in range, so that its join and its effect need no test: its bounds are stops.
#[derive(Clone, Copy)]
struct Checked {
    add: i64,
    stops: Stops,
    ghost add_from: { neg_ℤ (pos (2 ^ 31)) ≤ℤ add },
    ghost add_to: { add ≤ℤ pos (2 ^ 31) },
}
