// The laws of numbers and arguments, each on the contract of a function that does nothing else.
ghost use Rattle.groups.specs.Laws.{OneShortest, ReadsExactly, AcceptsGroups, ComesBack, TooWide, Replaces, Placed, Samples, ArgumentsComeBack, CodesComeBack};

// Each number has one shortest row of groups.
pub fn one_shortest()
    ensures { OneShortest }
{}

// Reading gives the one outcome that the bytes at a place have.
pub fn reads_exactly()
    ensures { ReadsExactly }
{}

// Bytes that are read as a number are exactly its groups.
pub fn accepts_groups()
    ensures { AcceptsGroups }
{}

// A number of the width that was written is read back, and reading stops right behind it.
pub fn comes_back()
    ensures { ComesBack }
{}

// A wider number that was written is refused.
pub fn too_wide()
    ensures { TooWide }
{}

// Writing replaces the bytes at the place and leaves the others.
pub fn replaces()
    ensures { Replaces }
{}

// A fault's place lies within the bytes or at their end.
pub fn placed()
    ensures { Placed }
{}

// Some numbers, and some bytes that are none.
pub fn samples()
    ensures { Samples }
{}

// A lawful argument comes back from its code.
pub fn arguments_come_back()
    ensures { ArgumentsComeBack }
{}

// A code is read as an argument only if it is that argument's code.
pub fn codes_come_back()
    ensures { CodesComeBack }
{}
