// The text of facts, paths and cells.
ghost use Rattle.std.specs.Prelude.{◌≡◌, ◌++◌, map, Some, OnOk};
ghost use Rattle.words.specs.Names.{name_bytes};
ghost use Rattle.parse.specs.Fews.{few_items};
ghost use Rattle.facts.specs.Views.{value as valued};
ghost use Rattle.texts.specs.Facts.{arguments_text, fact_text, path_text, cell_text};

use facts::value::Value;
use pages::page::Page;
use parse::few::Few;
use parse::number::Cell;
use std::alloc::AllocError;
use std::fmt;
use words::name::Name;

// The numbers of a path: `-` where it is empty, else they stand with dots between them.
#[derive(Clone, Copy, Debug, PartialEq, Eq)]
pub struct Path<'a>(pub &'a [u8]);

impl fmt::Display for Path<'_> {
    ghost output = { λ path. Some (path_text path.0.now) };

    fn fmt<W: fmt::Write>(&self, f: &mut fmt::Formatter<W>) -> fmt::Result {
        let Some((first, others)) = self.0.split_first() else {
            return write!(f, "-");
        };
        write!(f, "{first}")?;
        for number in others {
            write!(f, ".{number}")?;
        }
        Ok(())
    }
}

// The members of a cell's content, from the least to the greatest, and how many there are.
#[derive(Clone, Copy, Debug, PartialEq, Eq)]
pub struct Members {
    pub least: i32,
    pub greatest: i32,
    pub count: u32,
}

// A cell that is not whole.
#[derive(Clone, Copy, Debug, PartialEq, Eq)]
pub struct Narrowed {
    pub cell: Cell,
    pub members: Members,
}

impl fmt::Display for Narrowed {
    ghost output = { λ it. Some (cell_text it.cell.index it.members.least it.members.greatest it.members.count) };

    fn fmt<W: fmt::Write>(&self, f: &mut fmt::Formatter<W>) -> fmt::Result {
        let cell = Value::Cell(self.cell);
        let Members {
            least,
            greatest,
            count,
        } = self.members;
        write!(f, "{cell} from {least} to {greatest}, {count} members")
    }
}

// Writes arguments in brackets; nothing where there are none.
pub fn write_arguments(page: &mut Page, arguments: Few<Value>) -> Result<(), AllocError>
    ensures { OnOk result (page.new.bytes.items ≡ page.old.bytes.items ++ arguments_text (map valued (few_items arguments))) }
{
    match arguments {
        Few::Zero => Ok(()),
        Few::One(a) => write!(page, "({a})"),
        Few::Two(a, b) => write!(page, "({a},{b})"),
        Few::Three(a, b, c) => write!(page, "({a},{b},{c})"),
    }
}

// Writes a fact: its name, and its arguments.
pub fn write_fact(page: &mut Page, name: &Name, arguments: Few<Value>) -> Result<(), AllocError>
    ensures { OnOk result (page.new.bytes.items ≡ page.old.bytes.items ++ fact_text (name_bytes name.now) (map valued (few_items arguments))) }
{
    page.name(name)?;
    write_arguments(page, arguments)
}
