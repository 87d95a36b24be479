// The values of a rule's variables.
ghost use Rattle.std.specs.Prelude.{◌≡◌, length};

mod values;

use crate::value::Value;

// The values of at most six variables, by their numbers; none while a variable has no value. By value, since entries of the stack are.
#[derive(Clone, Copy, Debug, PartialEq, Eq)]
pub struct Bindings {
    values: [Option<Value>; 6],
    ghost six: { length values ≡ 6 },
}
