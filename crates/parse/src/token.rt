// Words as the grammar knows them: a name that is `true` or `fail` is a sign, an arrow knows whether a guard follows it, a number whether
// it is a weight.
use words::count::Count;
use words::name::Name;

#[derive(Clone, Copy, Debug, PartialEq, Eq)]
pub enum Sign {
    At,
    Comma,
    Dot,
    Semicolon,
    Bar,
    Backslash,
    Open,
    Close,
    Plus,
    Minus,
    Colon,
    Hash,
    Ask,
    Less,
    AtMost,
    Equal,
    AtLeast,
    Greater,
    Different,
    Simplify,
    SimplifyGuarded,
    Propagate,
    PropagateGuarded,
    True,
    Fail,
}

#[derive(Clone, Copy, Debug, PartialEq, Eq)]
pub enum Lexeme {
    Name(Name),
    Variable(Name),
    Number(Count),
    Weight(Count),
    Sign(Sign),
}

// A word, with the place of its first byte.
#[derive(Clone, Copy, Debug, PartialEq, Eq)]
pub struct Token {
    pub place: usize,
    pub lexeme: Lexeme,
}
