// At most three of a kind.
ghost use Rattle.std.specs.Prelude.{◌≡◌, ◌-◌, ◌≤◌, [], ◌∷◌, ◌++◌, length, take, OnOk};
ghost use Rattle.parse.specs.Fews.{few_items};

use std::alloc::AllocError;

#[derive(Clone, Copy, Debug, PartialEq, Eq)]
pub enum Few<T> {
    Zero,
    One(T),
    Two(T, T),
    Three(T, T, T),
}

// For how many there is room, at most three.
#[derive(Clone, Copy, Debug, PartialEq, Eq)]
pub struct Room {
    pub left: u8,
    ghost few: { left ≤ 3 },
}

impl<T: Copy> Few<T> {
    // How many there are.
    pub fn len(self) -> u8
        ensures { result ≡ length (few_items self) }
    {
        match self {
            Few::Zero => 0,
            Few::One(_) => 1,
            Few::Two(_, _) => 2,
            Few::Three(_, _, _) => 3,
        }
    }

    // For how many more there is room.
    pub fn room(self) -> Room
        ensures { result.left ≡ 3 - length (few_items self) }
    {
        match self {
            Few::Zero => Room { left: 3 },
            Few::One(_) => Room { left: 2 },
            Few::Two(_, _) => Room { left: 1 },
            Few::Three(_, _, _) => Room { left: 0 },
        }
    }

    // All of them, behind what a table holds.
    pub fn append_to(self, out: &mut Vec<T>) -> Result<(), AllocError>
        ensures { OnOk result (out.new.items ≡ out.old.items ++ few_items self) }
    {
        match self {
            Few::Zero => {}
            Few::One(a) => out.push(a)?,
            Few::Two(a, b) => {
                out.push(a)?;
                out.push(b)?;
            }
            Few::Three(a, b, c) => {
                out.push(a)?;
                out.push(b)?;
                out.push(c)?;
            }
        }
        Ok(())
    }

    // One more behind the others, where there is room.
    pub fn with(self, x: T) -> Few<T>
        ensures { few_items result ≡ take 3 (few_items self ++ x ∷ []) }
    {
        match self {
            Few::Zero => Few::One(x),
            Few::One(a) => Few::Two(a, x),
            Few::Two(a, b) => Few::Three(a, b, x),
            Few::Three(a, b, c) => Few::Three(a, b, c),
        }
    }
}

#[cfg(test)]
mod tests {
    use super::*;
    use std::test::Fail;

    #[test]
    fn appends_behind_the_others(rt: HostRuntime) -> Result<(), Fail> {
        let mut out = Vec::new(rt.alloc());
        Few::Three(1u8, 2, 3).append_to(&mut out)?;
        Few::One(4u8).append_to(&mut out)?;
        Few::Two(5u8, 6).append_to(&mut out)?;
        assert_eq!(rt; out.as_slice(), [1, 2, 3, 4, 5, 6].as_slice());
        Ok(())
    }
}
