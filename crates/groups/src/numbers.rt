// Numbers of 32 or 64 bits in groups of seven bits, lowest first, the top bit set on all but the last.
ghost use Rattle.std.specs.Prelude.{◌≡◌, ℕ, ◌+◌, ◌-◌, ◌^◌, ◌<◌, ◌≤◌, Some, None, MatchOption, option_map, length, take, drop, if◌then◌else◌, nat_le, nat_lt};
ghost use Rattle.std.specs.List.{prefix_len};
ghost use Rattle.std.proofs.Common.{lit≤};
ghost use Rattle.groups.specs.Groups.{groups, high, value, written};
ghost use Rattle.groups.specs.Reading.{fault_number, fault_place, fault_text, number_in, run, read_as, read_at, Within};
ghost use Rattle.groups.specs.Widths.{Fits, itself_fits};

use std::error::Error;
use std::fmt;
use std::num::TryFromIntError;

// A type of the numbers that fit some bits.
pub trait Whole: TryFrom<u64, Error = TryFromIntError> {
    // How many bits its numbers may have.
    ghost bits: { ℕ };

    // The number that a value is.
    ghost number: { Self → ℕ };

    // A number is converted exactly if it fits the bits.
    ghost fits: { (n : ℕ) (r : _) → Self.try_from_gives n r → Fits bits number n r };

    // And none has more than 64 bits.
    ghost at_most_64: { bits ≤ 64 };
}

impl Whole for u32 {
    ghost bits = { 32 };

    ghost number = { λ n. n };

    ghost fits = { itself_fits 32 };

    ghost at_most_64 = { lit≤ tt };
}

impl Whole for u64 {
    ghost bits = { 64 };

    ghost number = { λ n. n };

    ghost fits = { itself_fits 64 };

    ghost at_most_64 = { lit≤ tt };
}

// Why there is no number: it is cut short, or its groups are not the shortest or too wide; with the place of its first byte.
#[derive(Clone, Copy, Debug, PartialEq, Eq)]
pub enum NumberFault {
    Short(usize),
    Shape(usize),
}

impl NumberFault {
    // The refusal's number.
    pub fn number(self) -> u8
        ensures { result ≡ fault_number self }
    {
        match self {
            NumberFault::Short(_) => 19,
            NumberFault::Shape(_) => 20,
        }
    }

    // The refusal's place.
    pub fn place(self) -> usize
        ensures { result ≡ fault_place self }
    {
        match self {
            NumberFault::Short(place) | NumberFault::Shape(place) => place,
        }
    }
}

impl fmt::Display for NumberFault {
    ghost output = { λ f. Some (fault_text f) };

    fn fmt<W: fmt::Write>(&self, f: &mut fmt::Formatter<W>) -> fmt::Result {
        match self {
            NumberFault::Short(place) => write!(f, "the number at {place} is cut short"),
            NumberFault::Shape(place) => {
                write!(
                    f,
                    "the number at {place} is not in its shortest groups or too wide"
                )
            }
        }
    }
}

impl Error for NumberFault {}

// How many groups a number has.
pub fn width_of(n: u64) -> usize
    ensures { result ≡ length (groups n) }
{
    n.max(1).ilog2() as usize / 7 + 1
}

// Fills bytes with a number's groups.
fn fill(part: &mut [u8], n: u64)
    requires { length part.old ≡ length (groups n) }
    ensures { part.new ≡ groups n }
{
    let mut rest = n;
    for byte in part.iter_mut() {
        *byte = if rest < 128 {
            rest as u8
        } else {
            (rest % 128 + 128) as u8
        };
        rest /= 128;
    }
}

// Writes a number's groups at a place and answers the place behind them, or none if there is no room.
pub fn write(n: u64, out: &mut [u8], at: usize) -> Option<usize>
    ensures answer { result ≡ (if nat_le (at + length (groups n)) (length out.old) then Some (at + length (groups n)) else None) }
    ensures bytes { out.new ≡ (if nat_le (at + length (groups n)) (length out.old) then written out.old at (groups n) else out.old) }
{
    let stop = at.checked_add(width_of(n))?;
    if stop > out.len() {
        return None;
    }
    fill(&mut out[at..stop], n);
    Some(stop)
}

// How many bytes with the top bit set stand in front.
fn run_of(bytes: &[u8]) -> usize
    ensures { result ≡ prefix_len high bytes.now }
{
    bytes.iter().take_while(|b| **b >= 128).count()
}

// The bytes of the number at a place: up to the first one with the top bit clear, if there is one.
fn groups_at(bytes: &[u8], at: usize) -> Option<&[u8]>
    ensures { MatchOption result (length bytes.now ≤ at + run bytes.now at)
        (λ part. (at + run bytes.now at < length bytes.now) × (part.now ≡ take (run bytes.now at + 1) (drop at bytes.now))) }
{
    let tail = bytes.get(at..)?;
    tail.get(..=run_of(tail))
}

// The number that groups stand for, if it has no more than 64 bits.
fn value_of(part: &[u8]) -> Option<u64>
    ensures { result ≡ (if nat_lt (value part.now) (2 ^ 64) then Some (value part.now) else None) }
{
    let mut n: u64 = 0;
    for b in part.iter().rev() {
        n = n.checked_mul(128)?.checked_add(u64::from(*b % 128))?;
    }
    Some(n)
}

// The number that groups stand for, if it fits its bits and they are its shortest groups. More groups than any number has are not counted.
fn number_of<T: Whole>(part: &[u8]) -> Option<T>
    ensures { option_map T.number result ≡ number_in part.now T.bits }
{
    if part.len() > width_of(u64::MAX) {
        return None;
    }
    let n = value_of(part)?;
    if width_of(n) != part.len() {
        return None;
    }
    T::try_from(n).ok()
}

// Reads the number at a place, and says where it ends.
pub fn read<T: Whole>(bytes: &[u8], at: usize) -> Result<(T, usize), NumberFault>
    ensures read { read_as T.number result ≡ read_at bytes.now at T.bits }
    ensures within { Within (read_as T.number result) bytes.now at T.bits }
{
    let part = groups_at(bytes, at).ok_or(NumberFault::Short(at.min(bytes.len())))?;
    let n = number_of(part).ok_or(NumberFault::Shape(at))?;
    Ok((n, at + part.len()))
}
