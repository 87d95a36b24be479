// The words of a text.
use crate::count::Count;
use crate::marks::Mark;
use crate::name::Name;

#[derive(Clone, Copy, Debug, PartialEq, Eq)]
pub enum What {
    Name(Name),
    Variable(Name),
    Number(Count),
    Sign(Mark),
}

// A word, with the place of its first byte.
#[derive(Clone, Copy, Debug, PartialEq, Eq)]
pub struct Word {
    pub place: usize,
    pub what: What,
}
