// Cases in a file: a line `@ NAME L1 L2`, then two parts of that many bytes, each with a line feed behind it.
ghost use Rattle.std.specs.Prelude.{◌+◌, ◌<◌, ◌≤◌, length, IfSome};
ghost use Rattle.std.specs.Iterator.{at_most};

#[derive(Clone, Copy, Debug, PartialEq, Eq)]
pub struct Case<'a> {
    pub name: &'a [u8],
    pub input: &'a [u8],
    pub expected: &'a [u8],
}

// The cases of a text, one after another; what is no case ends them.
#[derive(Drop)]
pub struct Cases<'a>(pub &'a [u8]);

impl<'a> Iterator for Cases<'a> {
    type Item = Case<'a>;

    ghost remaining = { λ s. at_most (length s.0.now) };

    fn next(&mut self) -> Option<Case<'a>> {
        let (case, rest) = first_case(self.0)?;
        self.0 = rest;
        Some(case)
    }
}

// What stands before the first such byte, and what behind it.
fn cut(text: &[u8], at: u8) -> (&[u8], &[u8])
    ensures { length result.0.now + length result.1.now ≤ length text.now }
{
    match text.iter().position(|byte| *byte == at) {
        Some(i) => (&text[..i], &text[i + 1..]),
        None => (text, &[]),
    }
}

// The number that digits say; other bytes are passed over.
fn number(digits: &[u8]) -> usize {
    digits
        .iter()
        .filter_map(|byte| char::from(*byte).to_digit(10))
        .fold(0usize, |n, digit| {
            n.saturating_mul(10).saturating_add(digit as usize)
        })
}

// The first bytes of a text, and what stands behind the byte after them.
fn piece(text: &[u8], count: usize) -> Option<(&[u8], &[u8])>
    ensures { IfSome result (λ p. length p.1.now < length text.now) }
{
    let (first, behind) = text.split_at_checked(count)?;
    let (_feed, rest) = behind.split_first()?;
    Some((first, rest))
}

// The first case of a text, and what stands behind it.
fn first_case(text: &[u8]) -> Option<(Case<'_>, &[u8])>
    ensures { IfSome result (λ p. length p.1.now < length text.now) }
{
    let (title, parts) = cut(text, b'\n');
    let (_mark, title) = cut(title, b' ');
    let (name, lengths) = cut(title, b' ');
    let (first, second) = cut(lengths, b' ');
    let (input, parts) = piece(parts, number(first))?;
    let (expected, rest) = piece(parts, number(second))?;
    Some((
        Case {
            name,
            input,
            expected,
        },
        rest,
    ))
}
