// Predicates: a name with its count of arguments.
ghost use Rattle.std.specs.Prelude.{◌≤◌, vec_len};

use words::name::Name;

pub mod numbering;

#[derive(Clone, Copy, Debug, PartialEq, Eq)]
pub struct Predicate {
    pub name: Name,
    pub arity: u8,
}

// A book has at most so many predicates.
pub const MOST_PREDICATES: usize = 32;

// At most 32, numbered from 0 as they first appear.
#[derive(Drop)]
pub struct Predicates {
    pub list: Vec<Predicate>,
    ghost few: { vec_len list ≤ 32 },
}
