// A number that a text may hold.
ghost use Rattle.std.specs.Prelude.{◌≡◌, ◌<◌, ◌≤◌, MatchResult};

// At most 1,000,000,000.
#[derive(Clone, Copy, Debug, PartialEq, Eq)]
pub struct Count {
    pub value: u32,
    ghost small: { value ≤ 1000000000 },
}

// A number is larger than a text may hold.
#[derive(Clone, Copy, Debug, PartialEq, Eq)]
pub struct TooLarge;

impl TryFrom<u64> for Count {
    type Error = TooLarge;

    ghost try_from_gives = { λ n r. MatchResult r (λ c. c.value ≡ n) (λ _. 1000000000 < n) };

    fn try_from(n: u64) -> Result<Count, TooLarge> {
        if n > 1_000_000_000 {
            return Err(TooLarge);
        }
        Ok(Count { value: n as u32 })
    }
}
