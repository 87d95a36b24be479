// Looking a name up in a table.
ghost use Rattle.std.specs.Prelude.{◌≡◌, ◌<◌, ◌≤◌, not, [], length, nat_lt};
ghost use Rattle.words.specs.Names.{name_bytes};
ghost use Rattle.parse.specs.declared.scope.Scope.TheVariants.{Goal};
ghost use Rattle.parse.specs.Flat.{spelled};
ghost use Rattle.parse.specs.Scopes.{variables, Found, Known, Joins};

use crate::number::Variable;
use crate::scope::{Names, Scope};
use std::alloc::{AllocError, Global};
use words::name::Name;
use words::name::spelling::same_name;

// Where in a table a name stands first, if it does.
pub fn position(names: &[Name], name: &Name) -> Option<usize>
    ensures { Found (spelled names.now) (name_bytes name.now) result }
{
    names.iter().position(|other| same_name(other, name))
}

impl<'a> Scope<'a> {
    // No variable may stand.
    pub fn closed() -> Scope<'a>
        ensures { result ≡ Goal }
    {
        Scope::Goal
    }
}

impl Names {
    // No names.
    pub fn new(heap: Global) -> Names
        ensures { variables result ≡ [] }
    {
        let list = Vec::new(heap);
        Names { list }
    }

    // The number of a name, if it is among these.
    pub fn find(&self, name: &Name) -> Option<Variable>
        ensures { Known (variables self.now) (name_bytes name.now) result }
    {
        let i = position(&self.list, name)?;
        Some(Variable { index: i as u8 })
    }

    // Whether there is no room for another.
    pub fn is_full(&self) -> bool
        ensures { result ≡ not (nat_lt (length (variables self.now)) 6) }
    {
        self.list.len() >= 6
    }

    // The number of a name, which joins the others if it is new; none where there is no room for it.
    pub fn join(&mut self, name: Name) -> Result<Option<Variable>, AllocError>
        ensures { Joins (variables self.old) (name_bytes name) result (variables self.new) }
    {
        if let Some(known) = self.find(&name) {
            return Ok(Some(known));
        }
        let count = self.list.len();
        if count >= 6 {
            return Ok(None);
        }
        self.list.push(name)?;
        Ok(Some(Variable { index: count as u8 }))
    }
}

#[cfg(test)]
mod tests {
    use super::*;
    use std::test::Fail;

    #[test]
    fn numbers_names_as_they_join(rt: HostRuntime) -> Result<(), Fail> {
        let mut names = Names::new(rt.alloc());
        let first = Name::truth();
        assert!(rt; names.find(&first).is_none());
        assert_eq!(rt; names.join(first)?, Some(Variable { index: 0 }));
        assert_eq!(rt; names.join(Name::failure())?, Some(Variable { index: 1 }));
        assert_eq!(rt; names.join(first)?, Some(Variable { index: 0 }));
        assert!(rt; !names.is_full());
        Ok(())
    }
}
