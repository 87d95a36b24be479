// The steps of the machine against the transitions of the refined semantics: theorems over the definitions of `steps`.
#![tactic(auto)]

ghost use Rattle.transitions.specs.Accepted.{AcceptedWalks};
ghost use Rattle.transitions.specs.Books.{BooksFit};
ghost use Rattle.transitions.specs.Cells.{CellsKnown};
ghost use Rattle.transitions.specs.Goals.{PlainStarts};
ghost use Rattle.transitions.specs.Kinds.{BothLawful};
ghost use Rattle.transitions.specs.Measure.{Measure};
ghost use Rattle.transitions.specs.One.{OneTransition};
ghost use Rattle.transitions.specs.Soundness.{Soundness};
ghost use Rattle.transitions.specs.Derivations.{WalksByTransitions};
ghost use Rattle.transitions.specs.Texts.{TextsFit};

// Bounds and sets are kinds that the theorems speak of.
pub fn both_kinds_lawful()
    ensures { BothLawful }
{}

// The variables of every book that is read are among 6.
pub fn books_fit()
    ensures { BooksFit }
{}

// From a state within the limits there is exactly one transition, the computed step.
pub fn one_transition()
    ensures { OneTransition }
{}

// Every state of a walk is within the limits; on a branch something is on its stack.
pub fn walks_stay_sound()
    ensures { Soundness }
{}

// The walks are the derivations by transitions.
pub fn walks_by_transitions()
    ensures { WalksByTransitions }
{}

// A goal without variables, and with numbers within the limit, starts with its items in their order.
pub fn plain_goals_start()
    ensures { PlainStarts }
{}

// A transition that alters neither store, cells nor history lowers the load of the stack.
pub fn quiet_steps_end()
    ensures { Measure }
{}

// Every state of a walk mentions only its 32 cells, and at most 12,672 steps in a row alter nothing but the stack.
pub fn walks_know_their_cells()
    ensures { CellsKnown }
{}

// Books and goals that are accepted keep to what the theorems ask of programs and goals.
pub fn accepted_texts_fit()
    ensures { TextsFit }
{}

// For every accepted book and goal: the start, the one transition, the derivations, the limits and the measure, with nothing more asked.
pub fn accepted_walks()
    ensures { AcceptedWalks }
{}
