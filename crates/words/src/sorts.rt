// Which sort of word a byte begins, and which bytes go on.
ghost use Rattle.std.specs.Prelude.{◌≡◌};
ghost use Rattle.words.specs.Bytes.{sort, white, inner};

#[derive(Clone, Copy, Debug, PartialEq, Eq)]
pub enum Sort {
    White,
    Name,
    Variable,
    Number,
    Mark,
    Other,
}

impl From<u8> for Sort {
    ghost from_gives = { λ b k. k ≡ sort b };

    fn from(b: u8) -> Sort {
        match b {
            b' ' | b'\t' | b'\n' | b'\r' => Sort::White,
            b'a'..=b'z' => Sort::Name,
            b'A'..=b'Z' => Sort::Variable,
            b'0'..=b'9' => Sort::Number,
            b'@'
            | b','
            | b'.'
            | b';'
            | b'|'
            | b'\\'
            | b'('
            | b')'
            | b'+'
            | b'-'
            | b':'
            | b'#'
            | b'?'
            | b'<'
            | b'='
            | b'>' => Sort::Mark,
            _ => Sort::Other,
        }
    }
}

// Whether a byte parts words.
pub fn is_white(b: u8) -> bool
    ensures { result ≡ white b }
{
    matches!(b, b' ' | b'\t' | b'\n' | b'\r')
}

// Whether a name or a variable goes on with a byte.
pub fn is_inner(b: u8) -> bool
    ensures { result ≡ inner b }
{
    b.is_ascii_alphanumeric() || b == b'_'
}
