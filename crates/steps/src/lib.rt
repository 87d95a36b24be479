// The steps of the machine, as definitions, and walks that they give.
#![tactic(auto)]

ghost use Rattle.steps.specs.Examples.{Examples};
ghost use Rattle.steps.specs.Cases.{Cases};
ghost use Rattle.steps.specs.Points.{Points};
ghost use Rattle.steps.specs.Walk.{Computed};

// The worked drive, the empty goal, a propagation and a book that only grows: the steps of their edges and where they stand.
pub fn examples_stand()
    ensures { Examples }
{}

// Walks with cells, woken facts and choices, and with each cause of a broken branch.
pub fn cases_stand()
    ensures { Cases }
{}

// Small walks, each for one point of the steps.
pub fn points_stand()
    ensures { Points }
{}

// A walk computed along a path is the straight walk, at a choice or an end.
pub fn walks_are_computed()
    ensures { Computed }
{}
