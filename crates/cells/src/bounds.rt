ghost use Rattle.std.specs.Prelude.{◌≡◌, ◌≤◌, pos, negsuc, ◌-ℤ◌, ◌≤ℤ◌};
ghost use Rattle.cells.specs.Bounds.{bounds_ends, packed, is_bounds, bounds_member, bounds_narrowed, bounds_asked, bounds_least, bounds_greatest, bounds_counted};
ghost use Rattle.cells.specs.BoundsLaws as laws;

use crate::kind::Kind;
use crate::relations::{Relation, Telling};
use crate::spans::Span;

// The members are all numbers from a low to a high one, within 1,000,000,000 either way.
// The content is (low + 1,000,000,000) * 2^32 + high + 1,000,000,000.
pub struct Bounds;

// 2^32: what the low end is multiplied by.
const UNIT: u64 = 0x1_0000_0000;

// What is added to an end, so that it is not negative.
const SHIFT: i32 = 1_000_000_000;

// The end that is held as `part`.
fn end_of(part: u64) -> i32
    requires { part ≤ 2000000000 }
    ensures { result ≡ pos part -ℤ pos 1000000000 }
{
    part as i32 - SHIFT
}

// The ends that a content holds, or none if the number is no content.
fn ends(c: u64) -> Option<Span>
    ensures { result ≡ bounds_ends c }
{
    let low = c / UNIT;
    let high = c % UNIT;
    (low <= high && high <= 2_000_000_000).then(|| Span {
        low: end_of(low),
        high: end_of(high),
    })
}

// The content that holds these ends.
fn pack(s: Span) -> u64
    requires { (negsuc 999999999 ≤ℤ s.low) × ((s.low ≤ℤ s.high) × (s.high ≤ℤ pos 1000000000)) }
    ensures { result ≡ packed s.low s.high }
{
    (s.low + SHIFT) as u64 * UNIT + (s.high + SHIFT) as u64
}

impl Kind for Bounds {
    const LOWEST: i32 = -1_000_000_000;

    const HIGHEST: i32 = 1_000_000_000;

    ghost LOWEST = { negsuc 999999999 };

    ghost HIGHEST = { pos 1000000000 };

    ghost content = { is_bounds };

    ghost member = { bounds_member };

    ghost whole = { packed (negsuc 999999999) (pos 1000000000) };

    ghost narrowed = { bounds_narrowed };

    ghost asked = { bounds_asked };

    ghost least = { bounds_least };

    ghost greatest = { bounds_greatest };

    ghost counted = { bounds_counted };

    ghost ends = { laws.ends };

    ghost fits = { laws.fits };

    ghost inhabited = { laws.inhabited };

    ghost confined = { laws.confined };

    ghost extensional = { laws.extensional };

    ghost entire = { laws.entire };

    ghost narrows = { laws.narrows };

    ghost answers = { laws.answers };

    ghost leasts = { laws.leasts };

    ghost greatests = { laws.greatests };

    ghost counts = { laws.counts };

    fn whole() -> u64 {
        pack(Span {
            low: Self::LOWEST,
            high: Self::HIGHEST,
        })
    }

    fn is_content(c: u64) -> bool {
        ends(c).is_some()
    }

    fn narrow(c: u64, by: Telling, n: i32) -> Option<u64> {
        let s = ends(c)?;
        let left = s.clip(by, n)?;
        Some(pack(left))
    }

    fn ask(c: u64, relation: Relation, n: i32) -> bool {
        ends(c).is_none_or(|s| s.all(s.has(n), relation, n))
    }

    fn least(c: u64) -> Option<i32> {
        ends(c).map(|s| s.low)
    }

    fn greatest(c: u64) -> Option<i32> {
        ends(c).map(|s| s.high)
    }

    fn count(c: u64) -> u32 {
        ends(c).map_or(0, |s| s.high.abs_diff(s.low) + 1)
    }
}
