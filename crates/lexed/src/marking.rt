// The two rules of look-ahead: an arrow knows whether a guard follows it, a number whether it is a weight.
ghost use Rattle.std.specs.Prelude.{◌≡◌, ◌<◌, ◌≤◌, length};
ghost use Rattle.syntax.specs.Marks.{colon as colon-code};
ghost use Rattle.syntax.specs.Marking.{is_mark, marked, marked_sign};
ghost use Rattle.parse.specs.Tokens.{sign_code, token_word, words};
ghost use Rattle.lexed.specs.Looks.{guard_ahead_from, begins_after, begins_at, marked_by};
ghost use Rattle.lexed.specs.Texts.{places};

use parse::token::{Lexeme, Sign, Token};

// Whether the word is `:`.
fn is_colon(token: Token) -> bool
    ensures { result ≡ is_mark colon-code (token_word token) }
{
    matches!(token.lexeme, Lexeme::Sign(Sign::Colon))
}

// Whether a `|` comes before any `.` from a word on, by whether it does behind the word.
fn guard_from(token: Token, guard: bool) -> bool
    ensures { result ≡ guard_ahead_from (token_word token) guard }
{
    match token.lexeme {
        Lexeme::Sign(Sign::Bar) => true,
        Lexeme::Sign(Sign::Dot) => false,
        _ => guard,
    }
}

// Whether an alternative may begin behind a word, by whether a `|` comes before any `.` there.
fn starts_after(token: Token, guard: bool) -> bool
    ensures { result ≡ begins_after (token_word token) guard }
{
    match token.lexeme {
        Lexeme::Sign(Sign::Bar | Sign::Semicolon) => true,
        Lexeme::Sign(Sign::Simplify | Sign::Propagate) => !guard,
        _ => false,
    }
}

// An arrow with its guard told.
fn arrow_by(sign: Sign, guard: bool) -> Sign
    ensures { sign_code result ≡ marked_sign (sign_code sign) guard }
{
    match sign {
        Sign::Simplify if guard => Sign::SimplifyGuarded,
        Sign::Propagate if guard => Sign::PropagateGuarded,
        _ => sign,
    }
}

// A word as marked, by whether it may begin an alternative, whether `:` is next, and whether a `|` comes before any `.`.
fn marked_by(token: Token, starts: bool, colon: bool, guard: bool) -> Token
    ensures word { token_word result ≡ marked_by starts colon guard (token_word token) }
    ensures place { result.place ≡ token.place }
{
    let lexeme = match token.lexeme {
        Lexeme::Number(n) if starts && colon => Lexeme::Weight(n),
        Lexeme::Sign(sign) => Lexeme::Sign(arrow_by(sign, guard)),
        other => other,
    };
    Token {
        place: token.place,
        lexeme,
    }
}

// Whether an alternative may begin at an index.
fn starts_at(list: &[Token], at: usize, guard: bool) -> bool
    requires { at ≤ length list.now }
    ensures { result ≡ begins_at (words list.now) at guard }
{
    if at == 0 {
        return false;
    }
    starts_after(list[at - 1], guard)
}

// Both rules, from the last word to the first. By index, since the word before is read while a word is written.
pub fn mark(list: &mut [Token])
    ensures words { words list.new ≡ marked (words list.old) }
    ensures places { places list.new ≡ places list.old }
{
    let mut colon = false;
    let mut guard = false;
    for i in (0..list.len()).rev() {
        let token = list[i];
        let ahead = guard_from(token, guard);
        let starts = starts_at(list, i, ahead);
        list[i] = marked_by(token, starts, colon, guard);
        colon = is_colon(token);
        guard = ahead;
    }
}
