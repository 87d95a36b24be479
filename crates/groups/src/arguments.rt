// Arguments of facts, and their codes.
ghost use Rattle.std.specs.Prelude.{◌≡◌, Some, codes, ok_or};
ghost use Rattle.groups.specs.Arguments.{code, argument};

use std::error::Error;
use std::fmt;

#[derive(Clone, Copy, Debug, PartialEq, Eq)]
pub enum Argument {
    Number(i32),
    Cell(u8),
}

// A number is no argument's code.
#[derive(Clone, Copy, Debug, PartialEq, Eq)]
pub struct NoArgument;

impl fmt::Display for NoArgument {
    ghost output = { λ _. Some (codes "no argument has this code") };

    fn fmt<W: fmt::Write>(&self, f: &mut fmt::Formatter<W>) -> fmt::Result {
        f.write_str("no argument has this code")
    }
}

impl Error for NoArgument {}

// The code of an argument.
impl From<Argument> for u64 {
    ghost from_gives = { λ a coded. coded ≡ code a };

    fn from(a: Argument) -> u64 {
        match a {
            Argument::Number(n) => {
                let size = u64::from(n.unsigned_abs());
                if n < 0 { 4 * size - 2 } else { 4 * size }
            }
            Argument::Cell(k) => 2 * u64::from(k) + 1,
        }
    }
}

// The argument that has a code, if one has.
impl TryFrom<u64> for Argument {
    type Error = NoArgument;

    ghost try_from_gives = { λ coded r. r ≡ ok_or (argument coded) record {} };

    fn try_from(coded: u64) -> Result<Argument, NoArgument> {
        match coded % 4 {
            0 if coded / 4 <= 1_000_000_000 => Ok(Argument::Number((coded / 4) as i32)),
            2 if coded / 4 < 1_000_000_000 => Ok(Argument::Number(-((coded / 4) as i32) - 1)),
            1 | 3 if coded / 2 < 32 => Ok(Argument::Cell((coded / 2) as u8)),
            _ => Err(NoArgument),
        }
    }
}
