// The envelope's calls.
ghost use Rattle.std.specs.Prelude.{◌≡◌, refl};
ghost use Rattle.sections.specs.Envelope.{decay_fault, envelope};
ghost use Rattle.sections.specs.Made.{Made};
ghost use Rattle.sections.specs.Lawful;
ghost use Rattle.sections.specs.EnvelopeLaws.{sound};

use crate::envelope::{Checked, Decay, Envelope, EnvelopeMap};
use crate::section::Section;
use faults::{RecordFault, Value};

// The first decay that is too large.
const DECAY_LIMIT: u32 = 2_147_483_648;

impl Decay {
    // The decay, or its fault where it is 2^31 or more.
    pub fn new(value: u32) -> Result<Decay, RecordFault>
        ensures { Made (decay_fault value) result (λ d. d.value ≡ value) }
    {
        if value >= DECAY_LIMIT {
            return Err(RecordFault::Value(Value::First));
        }
        Ok(Decay { value })
    }

    pub fn value(&self) -> u32
        ensures { result ≡ self.now.value }
    {
        self.value
    }
}

// `rest` and `join` read as the integrator's do: a trait over both types of map would be longer than these lines.
impl Section for Envelope {
    type State = i32;

    type Map = EnvelopeMap;

    type Params = Decay;

    const SIGNED: bool = true;

    ghost SIGNED = { envelope.signed };

    ghost meaning = { envelope };

    ghost signed = { refl };

    ghost laws = { Lawful.laws _ _ _ sound };

    ghost reading = { Lawful.reading _ _ _ sound };

    fn next(params: Decay, state: i32, word: u32) -> i32 {
        (word.cast_signed() as i64).max(state as i64 - params.value as i64) as i32
    }

    fn rest() -> EnvelopeMap {
        Checked::rest().into()
    }

    fn word_map(params: Decay, word: u32) -> EnvelopeMap {
        EnvelopeMap {
            fall: -(params.value as i64),
            floor: word.cast_signed(),
        }
    }

    fn join(first: EnvelopeMap, second: EnvelopeMap) -> EnvelopeMap {
        Checked::read(first).join(Checked::read(second)).into()
    }

    fn effect(map: EnvelopeMap, state: i32) -> i32 {
        Checked::read(map).moved(state)
    }

    fn shown(state: i32) -> u32 {
        state.cast_unsigned()
    }
}
