// The line of a text in which a place lies.
ghost use Rattle.std.specs.Prelude.{◌≡◌, ◌≤◌, length};
ghost use Rattle.std.specs.List.{prefix_len, suffix_len};
ghost use Rattle.account.specs.Lines.{inline, spot_at, seen_spot};

// A line without its line feed, and how many of its bytes stand before the place.
#[derive(Clone, Copy, Debug, PartialEq, Eq)]
pub struct Spot<'a> {
    pub line: &'a [u8],
    pub column: usize,
}

// How many bytes stand at a text's end that are on its last line.
fn last_line_len(text: &[u8]) -> usize
    ensures within { result ≤ length text.now }
    ensures value { result ≡ suffix_len inline text.now }
{
    text.iter().rev().take_while(|b| **b != b'\n').count()
}

// How many bytes stand on a text's first line.
fn first_line_len(text: &[u8]) -> usize
    ensures within { result ≤ length text.now }
    ensures value { result ≡ prefix_len inline text.now }
{
    text.iter().take_while(|b| **b != b'\n').count()
}

// The line in which a place lies; the text's end lies in its last line. None past the end.
pub fn line_of(text: &[u8], place: usize) -> Option<Spot<'_>>
    ensures { seen_spot result ≡ spot_at text.now place }
{
    let (before, behind) = text.split_at_checked(place)?;
    let start = place - last_line_len(before);
    let stop = place + first_line_len(behind);
    Some(Spot {
        line: &text[start..stop],
        column: place - start,
    })
}
