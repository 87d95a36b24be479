// Contents are read and altered.
ghost use Rattle.std.specs.Prelude.{◌≡◌, replicate, slice_index, slice_set};

use super::Cells;
use cells::kind::Kind;
use parse::number::Cell;

impl Cells {
    // All cells have the whole content.
    pub fn whole<K: Kind>() -> Cells
        ensures { result.contents ≡ replicate 32 K.Kind.whole }
    {
        let content = K::whole();
        Cells {
            contents: [content; 32],
        }
    }

    // The content of a cell.
    pub fn get(&self, cell: Cell) -> u64
        ensures { result ≡ slice_index self.now.contents cell.index }
    {
        self.contents[cell.index as usize]
    }

    // A cell has another content now.
    pub fn set(&mut self, cell: Cell, to: u64)
        ensures { self.new.contents ≡ slice_set self.old.contents cell.index to }
    {
        self.contents[cell.index as usize] = to;
    }

    // The contents, by the numbers of the cells.
    pub fn list(&self) -> &[u64]
        ensures { result.now ≡ self.now.contents }
    {
        &self.contents
    }
}
