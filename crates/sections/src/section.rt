// What a section is: states, maps and parameters of its own, the operations on them, and what they mean.
ghost use Rattle.std.specs.Prelude.{◌≡◌, Bool};
ghost use Rattle.sections.specs.Meaning.{Laws, Meaning, Reading, number_of};

// A recursive section. States and maps are kept as plain numbers, and every number is legal: one out of range is read
// as the state 0, or as the rest map. No operation refuses anything.
pub trait Section {
    type State: Copy;

    type Map: Copy;

    type Params: Copy;
    // whether the section's words are read signed
    const SIGNED: bool;

    ghost SIGNED: { Bool };

    // the recursion, the maps and their effects, and the word that a state shows, in plain arithmetic
    ghost meaning: { Meaning Self.Params Self.State Self.Map };

    // The next state, for a state and a word.
    fn next(params: Self::Params, state: Self::State, word: u32) -> Self::State
        ensures { result ≡ meaning.next params state word };

    // The map that leaves every state as it is read.
    fn rest() -> Self::Map
        ensures { result ≡ meaning.rest };

    // The map of a word: its effect is the recursion's step for that word.
    fn word_map(params: Self::Params, word: u32) -> Self::Map
        ensures { result ≡ meaning.word params word };

    // One map with the effect of `first` and then `second`.
    fn join(first: Self::Map, second: Self::Map) -> Self::Map
        ensures { result ≡ meaning.join first second };

    // The state that a map takes `state` to.
    fn effect(map: Self::Map, state: Self::State) -> Self::State
        ensures { result ≡ meaning.effect map state };

    // The word that a state shows.
    fn shown(state: Self::State) -> u32
        ensures { result ≡ meaning.shown state };

    // Whether words are read signed.
    final fn is_signed() -> bool
        ensures { result ≡ meaning.signed }
    {
        Self::SIGNED
    }

    // the constant says what the meaning does
    ghost signed: { SIGNED ≡ meaning.signed };

    // the three laws: rest, join and word
    ghost laws: { Laws meaning };

    // how a kept number stands for a state
    ghost reading: { Reading meaning };
}

// The number that a word stands for, read as the section reads its words: two's complement where they are signed.
pub fn number<S: Section>(word: u32) -> i64
    ensures { result ≡ number_of S.Section.meaning.signed word }
{
    if S::is_signed() {
        word.cast_signed() as i64
    } else {
        word as i64
    }
}
