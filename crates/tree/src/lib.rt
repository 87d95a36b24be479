// The theorem of a search over alternatives.
#![tactic(auto)]

ghost use Rattle.tree.specs.Laws.{Statement};
ghost use Rattle.tree.specs.Small.{TwoEnds};

// Over any machine, a search in any order meets every end exactly once.
pub fn every_end_once<S, E>()
    ensures { Statement S E }
{}

// The theorem at a small machine: its two ends and its four steps.
pub fn two_ends()
    ensures { TwoEnds }
{}
