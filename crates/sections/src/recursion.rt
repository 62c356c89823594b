// The sample-by-sample recursion of any section.
ghost use Rattle.std.specs.Prelude.{◌≡◌};
ghost use Rattle.sections.specs.Recursion.{words_of};

use crate::section::Section;

// Puts in the place of each sample the word shown after it, from the state `start` on.
pub fn run<S: Section>(params: S::Params, start: S::State, samples: &mut [u32])
    ensures { samples.new ≡ words_of S.Section.meaning params start samples.old }
{
    let mut state = start;
    for sample in samples.iter_mut() {
        state = S::next(params, state, *sample);
        *sample = S::shown(state);
    }
}
