// Values are looked up and given.
ghost use Rattle.std.specs.Prelude.{◌≡◌, Some, None, slice_index_or, slice_set};
ghost use Rattle.facts.specs.Views.{value, value_if, bindings};
ghost use Rattle.steps.specs.Matching.{unbound};

use super::Bindings;
use crate::value::Value;
use parse::number::Variable;

impl Bindings {
    // No variable has a value.
    pub fn unbound() -> Bindings
        ensures { bindings result ≡ unbound }
    {
        Bindings { values: [None; 6] }
    }

    // The value of a variable, if it has one.
    pub fn get(&self, variable: Variable) -> Option<Value>
        ensures { value_if result ≡ slice_index_or (bindings self.now) variable.index None }
    {
        self.values[usize::from(variable.index)]
    }

    // A variable has a value now.
    pub fn set(&mut self, variable: Variable, to: Value)
        ensures { bindings self.new ≡ slice_set (bindings self.old) variable.index (Some (value to)) }
    {
        self.values[usize::from(variable.index)] = Some(to);
    }
}
