// A text of any bytes that grows at its end.
ghost use Rattle.std.specs.Prelude.{◌≡◌, [], ◌++◌, OnOk};
ghost use Rattle.std.specs.Fmt.{AppendsText};
ghost use Rattle.words.specs.Names.{name_bytes};

use std::alloc::{AllocError, Global};
use std::fmt::Display;
use words::name::Name;

#[derive(Drop)]
pub struct Page {
    pub heap: Global,
    pub bytes: Vec<u8>,
}

impl Page {
    pub fn new(heap: Global) -> Page
        ensures { result.bytes.items ≡ [] }
    {
        Page {
            heap,
            bytes: Vec::new(heap),
        }
    }

    pub fn raw(&mut self, more: &[u8]) -> Result<(), AllocError>
        ensures { OnOk result (self.new.bytes.items ≡ self.old.bytes.items ++ more.now) }
    {
        self.bytes.extend_from_slice(more)
    }

    pub fn text(&mut self, more: &str) -> Result<(), AllocError>
        ensures { OnOk result (self.new.bytes.items ≡ self.old.bytes.items ++ more.now) }
    {
        self.raw(more.as_bytes())
    }

    pub fn name(&mut self, name: &Name) -> Result<(), AllocError>
        ensures { OnOk result (self.new.bytes.items ≡ self.old.bytes.items ++ name_bytes name.now) }
    {
        self.raw(name.spelling())
    }

    // What `write!` calls: the text that `{}` writes of a value.
    pub fn write_fmt<D: Display + Drop>(&mut self, value: D) -> Result<(), AllocError>
        ensures { OnOk result (AppendsText self.old.bytes.items self.new.bytes.items (D.output value)) }
    {
        let shown = String::format(self.heap, value)?;
        self.text(&shown)
    }
}
