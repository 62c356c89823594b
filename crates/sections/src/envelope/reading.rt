// Maps in range: made from kept numbers after the range test, else rest.
ghost use Rattle.std.specs.Prelude.{◌≡◌};
ghost use Rattle.sections.specs.Envelope.{joined, moved, read_map, rest};

use crate::envelope::{Checked, EnvelopeMap};

// The deepest fall of a map.
const DEEPEST: i64 = -4_294_967_296;

impl Checked {
    // The map that leaves every state as it is.
    pub(crate) fn rest() -> Checked
        ensures { result.map ≡ rest }
    {
        Checked {
            map: EnvelopeMap {
                fall: 0,
                floor: i32::MIN,
            },
        }
    }

    // The map that kept numbers stand for: themselves in range, else rest. No `From`, which would hide that a map is replaced.
    pub(crate) fn read(map: EnvelopeMap) -> Checked
        ensures { result.map ≡ read_map map }
    {
        if (DEEPEST..=0).contains(&map.fall) {
            Checked { map }
        } else {
            Checked::rest()
        }
    }

    // The state that the map takes `state` to.
    pub(crate) fn moved(self, state: i32) -> i32
        ensures { result ≡ moved self.map state }
    {
        (state as i64 + self.map.fall).max(self.map.floor as i64) as i32
    }

    // One map with the effect of this one and then `second`.
    pub(crate) fn join(self, second: Checked) -> Checked
        ensures { result.map ≡ joined self.map second.map }
    {
        Checked {
            map: EnvelopeMap {
                fall: DEEPEST.max(self.map.fall + second.map.fall),
                floor: second.moved(self.map.floor),
            },
        }
    }
}

// The numbers to keep.
impl From<Checked> for EnvelopeMap {
    ghost from_gives = { λ c m. m ≡ c.map };

    fn from(checked: Checked) -> EnvelopeMap {
        checked.map
    }
}
