// Names and variables: 1 to 12 bytes, kept by value.
ghost use Rattle.std.specs.Prelude.{◌≡◌, ◌-◌, ◌<◌, ◌≤◌, drop, length, replicate};

pub mod spelling;

// The bytes behind the first `count` are 0, so that names of one spelling are one value.
#[derive(Clone, Copy, Debug, PartialEq, Eq)]
pub struct Name {
    bytes: [u8; 12],
    count: u8,
    ghost some: { 0 < count },
    ghost short: { count ≤ 12 },
    ghost filled: { length bytes ≡ 12 },
    ghost padded: { drop count bytes ≡ replicate (12 - count) 0 },
}
