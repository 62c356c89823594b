// The thrust envelope: the largest signed word so far, less a decay for each sample since.
ghost use Rattle.std.specs.Prelude.{◌^◌, ◌<◌, pos, neg_ℤ, ◌≤ℤ◌};

mod reading;
mod section;

// The section: the next state is the larger of the word and the state less the decay.
pub struct Envelope;

// The decay d, from 0 to 2^31 - 1.
#[derive(Clone, Copy)]
pub struct Decay {
    value: u32,
    ghost fits: { value < 2 ^ 31 },
}

// A map as it is kept, in plain numbers: it takes s to max(s + fall, floor).
#[derive(Clone, Copy)]
pub struct EnvelopeMap {
    pub fall: i64,
    pub floor: i32,
}

// A map whose fall is in range, so that its join and its effect need no test. Its floor is in range by its type.
#[derive(Clone, Copy)]
struct Checked {
    map: EnvelopeMap,
    ghost fall_from: { neg_ℤ (pos (2 ^ 32)) ≤ℤ map.fall },
    ghost fall_to: { map.fall ≤ℤ pos 0 },
}
