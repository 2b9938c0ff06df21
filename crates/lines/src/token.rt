ghost use Rattle.std.specs.Prelude.{◌≡◌};
ghost use Rattle.std.specs.Str.{bytes_eq};
ghost use Rattle.lines.specs.Numeral.{numeral};
ghost use Rattle.lines.specs.Tokens.{begins_with_digit, bytes_of, is_number, number_of};

use crate::number::number;

/// A piece of a line, told apart by its first byte.
#[derive(Clone, Copy)]
pub enum Token<'a> {
    /// The bytes of a piece that does not begin with a digit.
    Word(&'a [u8]),
    /// The bytes of a piece that begins with a digit; `number` gives their value, if they have one.
    Number(&'a [u8]),
}

impl<'a> From<&'a [u8]> for Token<'a> {
    ghost from_gives = { λ piece token. (bytes_of token ≡ piece.now)
        × (is_number token ≡ begins_with_digit piece.now)
        × (number_of token ≡ numeral piece.now) };

    /// A piece as a token: a number where its first byte is a digit, else a word.
    fn from(piece: &'a [u8]) -> Token<'a> {
        match piece {
            [b'0'..=b'9', ..] => Token::Number(piece),
            _ => Token::Word(piece),
        }
    }
}

impl<'a> Token<'a> {
    /// The value of a number; none of a word, of other bytes than 1 to 5 digits, and above 65,535.
    pub fn number(&self) -> Option<u16>
        ensures { result ≡ number_of self.now }
    {
        match self {
            Token::Word(_) => None,
            Token::Number(digits) => number(digits),
        }
    }

    /// Whether the token has the bytes of the given word, all of them and no others.
    pub fn is(&self, word: &[u8]) -> bool
        ensures { result ≡ bytes_eq (bytes_of self.now) word.now }
    {
        let (Token::Word(bytes) | Token::Number(bytes)) = self;
        *bytes == word
    }
}
