// What the reading of texts keeps, in the words of the grammar.
ghost use Rattle.book.specs.Examples.{Examples};
ghost use Rattle.book.specs.Claims.{BooksAccepted, OneBook, BooksRefused, GoalsAccepted, OneGoal, GoalsRefused};

// A text is accepted as a book exactly if some tree of the grammar is written with just its words, none with a fault, within the limits,
// and the book is that tree's; a text is at most one book.
pub fn books_are_spelled()
    ensures accepted { BooksAccepted }
    ensures one { OneBook }
{}

// A text is refused exactly for one of the reasons that the grammar and the book's limits give, with that reason's number, place and layer.
pub fn books_are_refused_for_a_reason()
    ensures { BooksRefused }
{}

// The same of goals.
pub fn goals_are_refused_for_a_reason()
    ensures { GoalsRefused }
{}

// The same of goals, all of whose predicates the book has.
pub fn goals_are_spelled()
    ensures accepted { GoalsAccepted }
    ensures one { OneGoal }
{}

// The drive's book and goal, and faulty texts of each layer, are read as they should be.
pub fn examples_stand()
    ensures { Examples }
{}
