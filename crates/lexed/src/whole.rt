// The tokens of a whole text.
ghost use Rattle.std.specs.Prelude.{◌≡◌, IfOk};
ghost use Rattle.syntax.specs.Marking.{marked};
ghost use Rattle.parse.specs.Tokens.{words};
ghost use Rattle.lexed.specs.Texts.{raw_words, word_places, text_words, places, Unmarked, WordByWord};

use crate::marking::mark;
use crate::raw::collect;
use crate::text::Tokens;
use std::alloc::{AllocError, Global};

// The words of a text up to its end or its first fault, with both rules of look-ahead applied.
pub fn tokens(heap: Global, text: &[u8]) -> Result<Tokens, AllocError>
    ensures words { IfOk result (λ t. words t.list.items ≡ marked (raw_words text.now)) }
    ensures places { IfOk result (λ t. places t.list.items ≡ word_places text.now) }
    ensures ending { IfOk result (λ t. t.ending ≡ (text_words text.now).1) }
{
    let Tokens { mut list, ending } = collect(heap, text)?;
    mark(&mut list);
    Ok(Tokens { list, ending })
}

// No word of a text is missed: what is read from a place on is the word there and what is read from where it ends.
pub fn words_come_one_by_one()
    ensures { WordByWord }
{}

// The words of a text are as they are written: none is marked before the rules of look-ahead are applied.
pub fn words_come_unmarked()
    ensures { Unmarked }
{}

#[cfg(test)]
mod tests {
    use super::*;
    use parse::token::{Lexeme, Sign};
    use std::test::Fail;

    #[test]
    fn guards_and_weights(rt: HostRuntime) -> Result<(), Fail> {
        let told = tokens(rt.alloc(), b"r @ a <=> 1 < 2 | 3 : true ; c.")?;
        assert!(rt; told.list.len() == 14);
        assert!(rt; matches!(told.list[3].lexeme, Lexeme::Sign(Sign::SimplifyGuarded)));
        assert!(rt; matches!(told.list[4].lexeme, Lexeme::Number(_)));
        assert!(rt; matches!(told.list[8].lexeme, Lexeme::Weight(_)));
        assert!(rt; matches!(told.list[10].lexeme, Lexeme::Sign(Sign::True)));
        assert!(rt; told.list[13].place == 30);
        assert!(rt; matches!(told.ending, Ok(31)));
        Ok(())
    }

    #[test]
    fn words_before_a_fault(rt: HostRuntime) -> Result<(), Fail> {
        let told = tokens(rt.alloc(), b"a ==> 4 : b. $ |")?;
        assert!(rt; told.list.len() == 6);
        assert!(rt; matches!(told.list[1].lexeme, Lexeme::Sign(Sign::Propagate)));
        assert!(rt; matches!(told.list[2].lexeme, Lexeme::Weight(_)));
        assert!(rt; told.ending.is_err());
        Ok(())
    }
}
