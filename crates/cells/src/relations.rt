ghost use Rattle.std.specs.Prelude.{◌≡◌, Some, MatchResult};
ghost use Rattle.cells.specs.Relations.{holds, relation_of, relation_text, Means};
ghost use Rattle.cells.specs.declared.relations.Relation.TheVariants.{Different};

use std::fmt;

// What a guard may ask of a cell.
#[derive(Clone, Copy, Debug, PartialEq, Eq)]
pub enum Relation {
    Less,
    AtMost,
    Equal,
    AtLeast,
    Greater,
    Different,
}

// What a body may tell of a cell: a relation that narrows it. To narrow by `Different` cannot be written.
#[derive(Clone, Copy, Debug, PartialEq, Eq)]
pub enum Telling {
    Less,
    AtMost,
    Equal,
    AtLeast,
    Greater,
}

impl Relation {
    // Whether `left` stands in this relation to `right`.
    pub fn holds(self, left: i32, right: i32) -> bool
        ensures { result ≡ holds self left right }
    {
        match self {
            Relation::Less => left < right,
            Relation::AtMost => left <= right,
            Relation::Equal => left == right,
            Relation::AtLeast => left >= right,
            Relation::Greater => left > right,
            Relation::Different => left != right,
        }
    }
}

// The relation that is told.
impl From<Telling> for Relation {
    ghost from_gives = { λ t r. r ≡ relation_of t };

    fn from(told: Telling) -> Relation {
        match told {
            Telling::Less => Relation::Less,
            Telling::AtMost => Relation::AtMost,
            Telling::Equal => Relation::Equal,
            Telling::AtLeast => Relation::AtLeast,
            Telling::Greater => Relation::Greater,
        }
    }
}

// `Different` cannot be told.
#[derive(Clone, Copy, Debug, PartialEq, Eq)]
pub struct NotTold;

// The telling of a relation.
impl TryFrom<Relation> for Telling {
    type Error = NotTold;

    ghost try_from_gives = { λ r t. MatchResult t (λ x. relation_of x ≡ r) (λ _. r ≡ Different) };

    fn try_from(relation: Relation) -> Result<Telling, NotTold> {
        match relation {
            Relation::Less => Ok(Telling::Less),
            Relation::AtMost => Ok(Telling::AtMost),
            Relation::Equal => Ok(Telling::Equal),
            Relation::AtLeast => Ok(Telling::AtLeast),
            Relation::Greater => Ok(Telling::Greater),
            Relation::Different => Err(NotTold),
        }
    }
}

// As a book spells it.
impl fmt::Display for Relation {
    ghost output = { λ r. Some (relation_text r) };

    fn fmt<W: fmt::Write>(&self, f: &mut fmt::Formatter<W>) -> fmt::Result {
        f.write_str(match self {
            Relation::Less => "<",
            Relation::AtMost => "=<",
            Relation::Equal => "=",
            Relation::AtLeast => ">=",
            Relation::Greater => ">",
            Relation::Different => "\\=",
        })
    }
}

impl fmt::Display for Telling {
    ghost output = { λ t. Some (relation_text (relation_of t)) };

    fn fmt<W: fmt::Write>(&self, f: &mut fmt::Formatter<W>) -> fmt::Result {
        Relation::from(*self).fmt(f)
    }
}

// Theorem: `holds` means the order of the whole numbers.
pub fn relations_mean_the_order()
    ensures { Means }
{}
