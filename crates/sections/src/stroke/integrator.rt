// The stroke integrator's calls.
ghost use Rattle.std.specs.Prelude.{◌≡◌, refl};
ghost use Rattle.sections.specs.Stroke.{stroke};
ghost use Rattle.sections.specs.Lawful;
ghost use Rattle.sections.specs.StrokeLaws.{sound};

use crate::section::Section;
use crate::stroke::reading::read_state;
use crate::stroke::{Checked, Stops, Stroke, StrokeMap};

impl Section for Stroke {
    type State = i32;

    type Map = StrokeMap;

    type Params = Stops;

    const SIGNED: bool = true;

    ghost SIGNED = { stroke.signed };

    ghost meaning = { stroke };

    ghost signed = { refl };

    ghost laws = { Lawful.laws _ _ _ sound };

    ghost reading = { Lawful.reading _ _ _ sound };

    fn next(params: Stops, state: i32, word: u32) -> i32 {
        params.hold(read_state(state) as i64 + word.cast_signed() as i64)
    }

    fn rest() -> StrokeMap {
        Checked::rest().into()
    }

    fn word_map(params: Stops, word: u32) -> StrokeMap {
        StrokeMap {
            add: word.cast_signed() as i64,
            low: params.lower,
            high: params.upper,
        }
    }

    fn join(first: StrokeMap, second: StrokeMap) -> StrokeMap {
        Checked::read(first).join(Checked::read(second)).into()
    }

    fn effect(map: StrokeMap, state: i32) -> i32 {
        Checked::read(map).moved(read_state(state))
    }

    fn shown(state: i32) -> u32 {
        read_state(state).cast_unsigned()
    }
}
