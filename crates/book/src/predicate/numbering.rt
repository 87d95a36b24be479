// Predicates are numbered as facts mention them.
ghost use Rattle.std.specs.Prelude.{◌≡◌, [], map};
ghost use Rattle.parse.specs.Model.{mention};
ghost use Rattle.book.specs.Predicates.{coded, predicates_agree, predicates, predicate_of, Numbered, Noted, Listed, listing, has, unknowns, UnknownTold};

use crate::faults::{BookFault, GrammarFault};
use crate::predicate::{MOST_PREDICATES, Predicate, Predicates};
use parse::tree::Mention;
use std::alloc::Global;
use words::name::spelling::same_name;

impl Predicate {
    // The predicate of a fact: its name, and how many arguments it has.
    pub fn of(fact: &Mention) -> Predicate
        ensures { coded result ≡ predicate_of (mention fact.now) }
    {
        Predicate {
            name: fact.name,
            arity: fact.arguments.len(),
        }
    }

    // Whether two predicates are the same: as many arguments, and one name.
    pub fn same(&self, other: &Predicate) -> bool
        ensures { result ≡ predicates_agree (coded self.now) (coded other.now) }
    {
        self.arity == other.arity && same_name(&self.name, &other.name)
    }
}

// Where in a table a predicate stands first, if it does.
fn position(list: &[Predicate], predicate: &Predicate) -> Option<usize>
    ensures { Numbered (map coded list.now) (coded predicate.now) result }
{
    list.iter().position(|known| known.same(predicate))
}

impl Predicates {
    // The number of a predicate, if it is among these.
    pub fn number(&self, predicate: &Predicate) -> Option<usize>
        ensures { Numbered (predicates self.now) (coded predicate.now) result }
    {
        position(&self.list, predicate)
    }

    // Whether a fact's predicate is among these.
    pub fn knows(&self, fact: &Mention) -> bool
        ensures { result ≡ has (predicates self.now) (predicate_of (mention fact.now)) }
    {
        self.number(&Predicate::of(fact)).is_some()
    }

    // Where the first fact stands whose predicate is not among these.
    pub fn first_unknown(&self, facts: &[Mention]) -> Option<usize>
        ensures { UnknownTold result (unknowns (predicates self.now) (map mention facts.now)) }
    {
        for fact in facts {
            if !self.knows(fact) {
                return Some(fact.place);
            }
        }
        None
    }

    // A fact's predicate joins the others if it is new; a 33rd is a fault at the fact's name.
    fn note(&mut self, fact: &Mention) -> Result<(), BookFault>
        ensures { Noted (predicates self.old) (mention fact.now) result (predicates self.new) }
    {
        if self.knows(fact) {
            return Ok(());
        }
        if self.list.len() >= MOST_PREDICATES {
            return Err(BookFault::Grammar(GrammarFault::TooMany(fact.place)));
        }
        self.list.push(Predicate::of(fact))?;
        Ok(())
    }

    // The predicates of some facts, numbered as they first appear.
    pub fn of(heap: Global, facts: &[Mention]) -> Result<Predicates, BookFault>
        ensures { Listed result (listing [] (map mention facts.now)) }
    {
        let mut all = Predicates {
            list: Vec::new(heap),
        };
        for fact in facts {
            all.note(fact)?;
        }
        Ok(all)
    }
}
