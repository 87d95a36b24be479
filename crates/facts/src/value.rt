// Values of arguments.
ghost use Rattle.std.specs.Prelude.{◌≡◌, Some};
ghost use Rattle.facts.specs.Views.{value};
ghost use Rattle.facts.specs.Texts.{value_text};
ghost use Rattle.steps.specs.Matching.{same_value};

use parse::number::{Cell, Number};
use std::fmt;

// An argument of a fact: a number, or one of the cells.
#[derive(Clone, Copy, Debug, PartialEq, Eq)]
pub enum Value {
    Number(Number),
    Cell(Cell),
}

impl Value {
    // Whether two values are equal: a cell equals only itself, and never a number. Named, to say so of `==`.
    pub fn same(self, other: Value) -> bool
        ensures { result ≡ same_value (value self) (value other) }
    {
        self == other
    }
}

// A number as it is, a cell as `#` and its number.
impl fmt::Display for Value {
    ghost output = { λ v. Some (value_text (value v)) };

    fn fmt<W: fmt::Write>(&self, f: &mut fmt::Formatter<W>) -> fmt::Result {
        match self {
            Value::Number(n) => write!(f, "{}", n.value),
            Value::Cell(k) => write!(f, "#{}", k.index),
        }
    }
}

#[cfg(test)]
mod tests {
    use crate::value::Value;
    use parse::number::{Cell, Number};
    use std::test::Fail;

    #[test]
    fn prints_numbers_and_cells(rt: HostRuntime) -> Result<(), Fail> {
        let below = Value::Number(Number { value: -7 });
        let cell = Value::Cell(Cell { index: 3 });
        let text = format!(in rt.alloc(); "{below} {cell}")?;
        assert!(rt; text.as_str() == "-7 #3");
        Ok(())
    }
}
