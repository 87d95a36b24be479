ghost use Rattle.std.specs.Prelude.{◌≡◌, pos, ◌≤ℤ◌, unsigned_abs};
ghost use Rattle.cells.specs.Sets.{window, some_bits, is_set, set_member, set_ends, set_narrowed, set_asked, set_least, set_greatest, set_counted};
ghost use Rattle.cells.specs.SetsLaws as laws;

use crate::kind::Kind;
use crate::relations::{Relation, Telling};
use crate::spans::Span;

// The members are among 0 to 63. Bit v of the content is set exactly if v is a member.
pub struct Sets;

// All numbers that may be members.
const ALL: Span = Span {
    low: Sets::LOWEST,
    high: Sets::HIGHEST,
};

// The number whose bits from the low to the high end are set.
fn mask(s: Span) -> u64
    requires { (pos 0 ≤ℤ s.low) × ((s.low ≤ℤ s.high) × (s.high ≤ℤ pos 63)) }
    ensures { result ≡ window (unsigned_abs s.low) (unsigned_abs s.high) }
{
    let low = s.low.unsigned_abs();
    let high = s.high.unsigned_abs();
    (u64::MAX >> (63 - high)) - ((1 << low) - 1)
}

// A number that is not 0.
fn nonzero(c: u64) -> Option<u64>
    ensures { result ≡ some_bits c }
{
    (c > 0).then_some(c)
}

// The least and the greatest member, or none if the number is no content.
fn ends(c: u64) -> Option<Span>
    ensures { result ≡ set_ends c }
{
    let c = nonzero(c)?;
    Some(Span {
        low: c.trailing_zeros() as i32,
        high: 63 - c.leading_zeros() as i32,
    })
}

// Whether `n` is a member.
fn has(c: u64, n: i32) -> bool
    ensures { result ≡ set_member c n }
{
    (0..=63).contains(&n) && (c >> n as u32) % 2 == 1
}

impl Kind for Sets {
    const LOWEST: i32 = 0;

    const HIGHEST: i32 = 63;

    ghost LOWEST = { pos 0 };

    ghost HIGHEST = { pos 63 };

    ghost content = { is_set };

    ghost member = { set_member };

    ghost whole = { window 0 63 };

    ghost narrowed = { set_narrowed };

    ghost asked = { set_asked };

    ghost least = { set_least };

    ghost greatest = { set_greatest };

    ghost counted = { set_counted };

    ghost ends = { laws.ends };

    ghost fits = { laws.fits };

    ghost inhabited = { laws.inhabited };

    ghost confined = { laws.confined };

    ghost extensional = { laws.extensional };

    ghost entire = { laws.entire };

    ghost narrows = { laws.narrows };

    ghost answers = { laws.answers };

    ghost leasts = { laws.leasts };

    ghost greatests = { laws.greatests };

    ghost counts = { laws.counts };

    fn whole() -> u64 {
        mask(ALL)
    }

    fn is_content(c: u64) -> bool {
        c != 0
    }

    fn narrow(c: u64, by: Telling, n: i32) -> Option<u64> {
        nonzero(c & mask(ALL.clip(by, n)?))
    }

    fn ask(c: u64, relation: Relation, n: i32) -> bool {
        ends(c).is_none_or(|s| s.all(has(c, n), relation, n))
    }

    fn least(c: u64) -> Option<i32> {
        ends(c).map(|s| s.low)
    }

    fn greatest(c: u64) -> Option<i32> {
        ends(c).map(|s| s.high)
    }

    fn count(c: u64) -> u32 {
        c.count_ones()
    }
}
