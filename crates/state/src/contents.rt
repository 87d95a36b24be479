// The contents of the cells.
ghost use Rattle.std.specs.Prelude.{◌≡◌, length};

mod moves;

// The contents of the 32 cells.
#[derive(Clone, Copy, Debug, PartialEq, Eq)]
pub struct Cells {
    contents: [u64; 32],
    ghost long: { length contents ≡ 32 },
}
