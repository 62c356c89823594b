// The worked figures, as one table with one theorem about the definitions.
#![tactic(auto)]

ghost use Rattle.figures.specs.Figures.{Figures};

// The figures stand.
pub fn figures()
    ensures { Figures }
{}
