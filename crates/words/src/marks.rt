// The marks that part and join words, taken by longest match.
ghost use Rattle.std.specs.Prelude.{◌≡◌, ◌<◌, ◌≤◌, IfSome};
ghost use Rattle.words.specs.Marks.{mark_of};

#[derive(Clone, Copy, Debug, PartialEq, Eq)]
pub enum Mark {
    At,
    Comma,
    Dot,
    Semicolon,
    Bar,
    Backslash,
    Open,
    Close,
    Plus,
    Minus,
    Colon,
    Hash,
    Ask,
    Simplify,
    Propagate,
    Less,
    AtMost,
    Equal,
    AtLeast,
    Greater,
    Different,
}

pub fn mark_of(a: u8, b: u8, c: u8) -> Option<(Mark, usize)>
    ensures value { result ≡ mark_of a b c }
    ensures width { IfSome result (λ m. (m.1 ≤ 3) × (1 < m.1 → 0 < b) × (2 < m.1 → 0 < c)) }
{
    match (a, b, c) {
        (b'<', b'=', b'>') => Some((Mark::Simplify, 3)),
        (b'=', b'=', b'>') => Some((Mark::Propagate, 3)),
        (b'?', b'-', _) => Some((Mark::Ask, 2)),
        (b'=', b'<', _) => Some((Mark::AtMost, 2)),
        (b'>', b'=', _) => Some((Mark::AtLeast, 2)),
        (b'\\', b'=', _) => Some((Mark::Different, 2)),
        (b'@', _, _) => Some((Mark::At, 1)),
        (b',', _, _) => Some((Mark::Comma, 1)),
        (b'.', _, _) => Some((Mark::Dot, 1)),
        (b';', _, _) => Some((Mark::Semicolon, 1)),
        (b'|', _, _) => Some((Mark::Bar, 1)),
        (b'\\', _, _) => Some((Mark::Backslash, 1)),
        (b'(', _, _) => Some((Mark::Open, 1)),
        (b')', _, _) => Some((Mark::Close, 1)),
        (b'+', _, _) => Some((Mark::Plus, 1)),
        (b'-', _, _) => Some((Mark::Minus, 1)),
        (b':', _, _) => Some((Mark::Colon, 1)),
        (b'#', _, _) => Some((Mark::Hash, 1)),
        (b'<', _, _) => Some((Mark::Less, 1)),
        (b'=', _, _) => Some((Mark::Equal, 1)),
        (b'>', _, _) => Some((Mark::Greater, 1)),
        _ => None,
    }
}
