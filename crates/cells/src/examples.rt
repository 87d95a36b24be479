ghost use Rattle.std.specs.Prelude.{◌≡◌, pos, negsuc};
ghost use Rattle.cells.specs.Examples.{AskedOfBounds, TwoLeft, EdgesOfBounds, EdgesOfSets};
ghost use Rattle.cells.specs.Settles.{Settles};

use crate::kind::Kind;

// Theorem: bounds 1 to 5 asked whether they differ from 6 say yes, and from 3 no.
pub fn bounds_differ()
    ensures { AskedOfBounds }
{}

// Theorem: of the whole set, 2 members are at least 62.
pub fn two_are_left()
    ensures { TwoLeft }
{}

// Theorem: bounds 1 to 5, told something that just none satisfies, and something that just one does.
pub fn edges_of_bounds()
    ensures { EdgesOfBounds }
{}

// Theorem: the same of the set of 3 and 5.
pub fn edges_of_sets()
    ensures { EdgesOfSets }
{}

// Theorem, for every kind: what was told stays so.
pub fn telling_settles<K: Kind>()
    ensures { Settles K.Kind.content K.Kind.narrowed K.Kind.asked }
{}

// Theorem: the constants are the ends that the kinds' laws speak of.
pub fn constants_are_the_ends()
    ensures bounds_lowest { ⟦<crate::bounds::Bounds as Kind>⟧.LOWEST ≡ negsuc 999999999 }
    ensures bounds_highest { ⟦<crate::bounds::Bounds as Kind>⟧.HIGHEST ≡ pos 1000000000 }
    ensures sets_lowest { ⟦<crate::sets::Sets as Kind>⟧.LOWEST ≡ pos 0 }
    ensures sets_highest { ⟦<crate::sets::Sets as Kind>⟧.HIGHEST ≡ pos 63 }
{}
