// Facts, paths and cells on a page.
ghost use Rattle.std.specs.Prelude.{◌≡◌, ◌++◌, OnOk};
ghost use Rattle.facts.specs.Views.{value as valued};
ghost use Rattle.facts.specs.Texts.{value_text};
ghost use Rattle.texts.specs.Facts.{path_text, cell_text};

use crate::wording::{Members, Narrowed, Path, write_fact};
use facts::value::Value;
use pages::page::Page;
use parse::few::Few;
use parse::number::{Cell, Number};
use std::alloc::AllocError;
use std::test::Fail;
use words::name::Name;

fn write_value(page: &mut Page, value: Value) -> Result<(), AllocError>
    ensures { OnOk result (page.new.bytes.items ≡ page.old.bytes.items ++ value_text (valued value)) }
{
    write!(page, "{value}")
}

fn write_path(page: &mut Page, numbers: &[u8]) -> Result<(), AllocError>
    ensures { OnOk result (page.new.bytes.items ≡ page.old.bytes.items ++ path_text numbers.now) }
{
    write!(page, "{}", Path(numbers))
}

fn write_cell(page: &mut Page, cell: Cell, members: Members) -> Result<(), AllocError>
    ensures { OnOk result (page.new.bytes.items ≡ page.old.bytes.items ++ cell_text cell.index members.least members.greatest members.count) }
{
    write!(page, "{}", Narrowed { cell, members })
}

#[test]
fn writes_facts_paths_and_cells(rt: HostRuntime) -> Result<(), Fail> {
    let mut page = Page::new(rt.alloc());
    let cell = Cell { index: 3 };
    let below = Value::Number(Number { value: -7 });
    if let Some(name) = Name::of(b"key") {
        write_fact(&mut page, &name, Few::Two(below, Value::Cell(cell)))?;
    }
    page.text(" ")?;
    write_path(&mut page, &[2, 1])?;
    page.text(" ")?;
    write_path(&mut page, &[])?;
    page.text(" ")?;
    let members = Members {
        least: 1,
        greatest: 9,
        count: 4,
    };
    write_cell(&mut page, cell, members)?;
    let written = b"key(-7,#3) 2.1 - #3 from 1 to 9, 4 members";
    assert!(rt; page.bytes.as_slice() == written.as_slice());
    write_value(&mut page, below)?;
    assert!(rt; page.bytes.as_slice().ends_with(b"members-7"));
    Ok(())
}
