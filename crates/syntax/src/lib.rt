// The grammar of rule books and goals, over words, and the readers that are exact against it.
#![tactic(auto)]

ghost use Rattle.syntax.specs.Late.{FaultsAreLate};
ghost use Rattle.syntax.specs.Claims.{BooksExactly, GoalsExactly, GuardsTold, LimitsExactly, MarkingMovesNothing, WrittenExactly};
ghost use Rattle.syntax.specs.Examples.{Examples};
ghost use Rattle.syntax.specs.Grammar.{say_book, say_goal};
ghost use Rattle.syntax.specs.Readers.{read_book, read_goal};

// A book is accepted, barred at a word or faulted at a word exactly as the grammar says.
pub fn books_are_read_exactly()
    ensures { BooksExactly }
{}

// A goal is accepted, barred at a word or faulted at a word exactly as the grammar says.
pub fn goals_are_read_exactly()
    ensures { GoalsExactly }
{}

// Words as written are accepted as a book exactly if they are those that the book is written with, none with a fault.
pub fn books_as_written()
    ensures { WrittenExactly read_book say_book }
{}

// Words as written are accepted as a goal exactly if they are those that the goal is written with, none with a fault.
pub fn goals_as_written()
    ensures { WrittenExactly read_goal say_goal }
{}

// A book or goal has no fault exactly if it keeps every limit, no rule's name comes twice, and each variable stands in a head.
pub fn limits_are_kept_exactly()
    ensures { LimitsExactly }
{}

// An arrow has a guard exactly if a `|` comes behind it before any `.`.
pub fn guards_are_told_by_a_bar()
    ensures { GuardsTold }
{}

// Telling guards and weights from what follows neither adds, drops, moves nor rewrites a word.
pub fn marking_moves_no_word()
    ensures { MarkingMovesNothing }
{}

// Books and goals that are accepted, and ones with each of the faults 4 to 8, read as they should be.
pub fn examples_stand()
    ensures { Examples }
{}

// A word has no fault by the grammar but 5 to 8.
pub fn faults_are_5_to_8()
    ensures { FaultsAreLate }
{}
