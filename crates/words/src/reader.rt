// A reader over a borrowed text, whose place never leaves the text.
ghost use Rattle.std.specs.Prelude.{◌≤◌, length};

pub mod steps;

#[derive(Drop)]
pub struct Words<'a> {
    text: &'a [u8],
    at: usize,
    ghost inside: { at ≤ length text.now },
}
