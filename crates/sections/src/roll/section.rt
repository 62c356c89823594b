// The roll section's calls.
ghost use Rattle.std.specs.Prelude.{◌≡◌, refl};
ghost use Rattle.sections.specs.Roll.{moved, roll};
ghost use Rattle.sections.specs.Lawful;
ghost use Rattle.sections.specs.RollLaws.{sound};

use crate::roll::{Coefficient, Roll, RollMap};
use crate::section::Section;

impl Coefficient {
    pub fn new(value: u32) -> Coefficient
        ensures { result.value ≡ value }
    {
        Coefficient { value }
    }

    pub fn value(&self) -> u32
        ensures { result ≡ self.now.value }
    {
        self.value
    }
}

impl RollMap {
    // The state that the map takes `state` to.
    fn moved(self, state: u32) -> u32
        ensures { result ≡ moved self state }
    {
        self.factor.wrapping_mul(state).wrapping_add(self.add)
    }
}

impl Section for Roll {
    type State = u32;

    type Map = RollMap;

    type Params = Coefficient;

    const SIGNED: bool = false;

    ghost SIGNED = { roll.signed };

    ghost meaning = { roll };

    ghost signed = { refl };

    ghost laws = { Lawful.laws _ _ _ sound };

    ghost reading = { Lawful.reading _ _ _ sound };

    fn next(params: Coefficient, state: u32, word: u32) -> u32 {
        params.value.wrapping_mul(state).wrapping_add(word)
    }

    fn rest() -> RollMap {
        RollMap { factor: 1, add: 0 }
    }

    fn word_map(params: Coefficient, word: u32) -> RollMap {
        RollMap {
            factor: params.value,
            add: word,
        }
    }

    fn join(first: RollMap, second: RollMap) -> RollMap {
        RollMap {
            factor: first.factor.wrapping_mul(second.factor),
            add: second.moved(first.add),
        }
    }

    fn effect(map: RollMap, state: u32) -> u32 {
        map.moved(state)
    }

    fn shown(state: u32) -> u32 {
        state
    }
}
