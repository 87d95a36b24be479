// Numbers within the limits of a book, which no later layer tests again.
ghost use Rattle.std.specs.Prelude.{◌≡◌, ◌<◌, ◌≤◌, pos, negsuc, neg_ℤ, ◌≤ℤ◌, MatchResult};

use std::ops::Neg;
use words::count::Count;

// A whole number within 1,000,000,000 either way.
#[derive(Clone, Copy, Debug, PartialEq, Eq)]
pub struct Number {
    pub value: i32,
    ghost low: { negsuc 999999999 ≤ℤ value },
    ghost high: { value ≤ℤ pos 1000000000 },
}

impl From<Count> for Number {
    ghost from_gives = { λ n r. r.value ≡ pos n.value };

    fn from(n: Count) -> Number {
        Number {
            value: n.value as i32,
        }
    }
}

impl Neg for Number {
    type Output = Number;

    ghost neg_gives = { λ n r. r.value ≡ neg_ℤ n.value };

    fn neg(self) -> Number {
        Number { value: -self.value }
    }
}

// A number that is beyond a limit.
#[derive(Clone, Copy, Debug, PartialEq, Eq)]
pub struct Beyond;

// One of the 32 cells.
#[derive(Clone, Copy, Debug, PartialEq, Eq)]
pub struct Cell {
    pub index: u8,
    ghost few: { index < 32 },
}

impl TryFrom<Count> for Cell {
    type Error = Beyond;

    ghost try_from_gives = { λ n r. MatchResult r (λ k. k.index ≡ n.value) (λ _. 31 < n.value) };

    fn try_from(n: Count) -> Result<Cell, Beyond> {
        if n.value > 31 {
            return Err(Beyond);
        }
        Ok(Cell {
            index: n.value as u8,
        })
    }
}

// One of a rule's six variables at most, by its first appearance.
#[derive(Clone, Copy, Debug, PartialEq, Eq)]
pub struct Variable {
    pub index: u8,
    ghost few: { index < 6 },
}

// The weight of an alternative, at most 1,000.
#[derive(Clone, Copy, Debug, PartialEq, Eq)]
pub struct Weight {
    pub value: u16,
    ghost light: { value ≤ 1000 },
}

impl TryFrom<Count> for Weight {
    type Error = Beyond;

    ghost try_from_gives = { λ n r. MatchResult r (λ w. w.value ≡ n.value) (λ _. 1000 < n.value) };

    fn try_from(n: Count) -> Result<Weight, Beyond> {
        if n.value > 1000 {
            return Err(Beyond);
        }
        Ok(Weight {
            value: n.value as u16,
        })
    }
}
