// An input is parted into book and goal.
ghost use Rattle.std.specs.Prelude.{◌≡◌, ℕ, ◌<◌, ◌≤◌, length};
ghost use Rattle.account.specs.Parting.{Asks, Parted};

// Where the first `?-` stands; the text's end, if there is none.
fn goal_start(text: &[u8]) -> usize
    ensures within { result ≤ length text.now }
    ensures before { (k : ℕ) → k < result → Asks text.now k → ⊥ }
    ensures found { result < length text.now → Asks text.now result }
{
    text.windows(2)
        .position(|two| two[0] == b'?' && two[1] == b'-')
        .unwrap_or(text.len())
}

// The book is what stands before the first `?-`, the goal what stands from there on.
pub fn part(input: &[u8]) -> (&[u8], &[u8])
    ensures { Parted input.now result.0.now result.1.now }
{
    input.split_at(goal_start(input))
}
