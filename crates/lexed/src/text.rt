// The tokens of a text, and how the text ends.
use parse::token::Token;
use words::faults::LetterFault;

// The words up to the end: the text's last byte, whose number of bytes is told, or a fault of its letters.
#[derive(Drop)]
pub struct Tokens {
    pub list: Vec<Token>,
    pub ending: Result<usize, LetterFault>,
}
