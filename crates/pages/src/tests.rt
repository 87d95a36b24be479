// Numbers and other values on a page.
ghost use Rattle.std.specs.Prelude.{◌≡◌, ◌++◌, OnOk, decimal};
ghost use Rattle.std.specs.Fmt.{signed_decimal};

use crate::page::Page;
use std::alloc::AllocError;
use std::test::Fail;
use words::name::Name;

fn size(page: &mut Page, n: usize) -> Result<(), AllocError>
    ensures { OnOk result (page.new.bytes.items ≡ page.old.bytes.items ++ decimal n) }
{
    write!(page, "{n}")
}

fn count(page: &mut Page, n: u64) -> Result<(), AllocError>
    ensures { OnOk result (page.new.bytes.items ≡ page.old.bytes.items ++ decimal n) }
{
    write!(page, "{n}")
}

fn number(page: &mut Page, n: i32) -> Result<(), AllocError>
    ensures { OnOk result (page.new.bytes.items ≡ page.old.bytes.items ++ signed_decimal n) }
{
    write!(page, "{n}")
}

#[test]
fn grows_at_its_end(rt: HostRuntime) -> Result<(), Fail> {
    let mut page = Page::new(rt.alloc());
    page.raw(b"\xff")?;
    page.text(" é ")?;
    if let Some(name) = Name::of(b"key") {
        page.name(&name)?;
    }
    write!(page, "({}) ", "no")?;
    size(&mut page, 0)?;
    page.text(" ")?;
    count(&mut page, u64::MAX)?;
    number(&mut page, -7)?;
    let written = b"\xff \xc3\xa9 key(no) 0 18446744073709551615-7";
    assert!(rt; page.bytes.as_slice() == written.as_slice());
    Ok(())
}
