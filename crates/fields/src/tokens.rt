// A field, by its kind: it lends its bytes from the text and says where they stand.
ghost use Rattle.std.specs.Prelude.{◌≡◌};
ghost use Rattle.fields.specs.Tokens.{seen, seen_of, bytes_of, line_of, place_of, is_word};

use crate::numbers::is_numeral;
use crate::registers::Register;

// Where a field stands: in which line, counted from 1, and at which index of the text it begins.
#[derive(Clone, Copy, Debug, PartialEq, Eq)]
pub struct Place {
    pub line: usize,
    pub index: usize,
}

#[derive(Clone, Copy, Debug, PartialEq, Eq)]
pub enum Token<'a> {
    Word { text: &'a [u8], place: Place },
    Register { register: Register, place: Place },
    Number { digits: &'a [u8], place: Place },
}

impl<'a> Token<'a> {
    // The token of a field that stands at that place.
    pub(crate) fn of(field: &'a [u8], place: Place) -> Token<'a>
        ensures says { seen result ≡ seen_of field.now }
        ensures bytes { bytes_of result ≡ field.now }
        ensures stands { (line_of result ≡ place.line) × (place_of result ≡ place.index) }
    {
        match Register::named(field) {
            Some(register) => Token::Register { register, place },
            None if is_numeral(field) => Token::Number {
                digits: field,
                place,
            },
            None => Token::Word { text: field, place },
        }
    }

    // Whether the token is the word, byte for byte.
    pub fn is_word(&self, word: &[u8]) -> bool
        ensures { result ≡ is_word (seen self.now) word.now }
    {
        matches!(self, Token::Word { text, .. } if *text == word)
    }
}
