// Classes of bytes: each function gives the test of its name in language's Tokens and Judging.
ghost use Rattle.std.specs.Prelude.{◌≡◌};
ghost use Rattle.language.specs.Tokens.{is_blank, is_digit, is_lower, is_upper, is_letter, is_word_byte, byte_at};
ghost use Rattle.language.specs.Judging.{all, is_symbol_byte, is_name_byte};
ghost use Rattle.lexer.specs.Classes.{test_of};

use super::Class;

// The byte at p, 0 past the end.
pub fn byte_at(s: &[u8], p: usize) -> u8
    ensures { result ≡ byte_at s.now p }
{
    s.get(p).copied().unwrap_or(0)
}

pub fn is_blank(b: u8) -> bool
    ensures { result ≡ is_blank b }
{
    matches!(b, b' ' | b'\n')
}

pub fn is_digit(b: u8) -> bool
    ensures { result ≡ is_digit b }
{
    b.is_ascii_digit()
}

pub fn is_lower(b: u8) -> bool
    ensures { result ≡ is_lower b }
{
    b.is_ascii_lowercase()
}

pub fn is_upper(b: u8) -> bool
    ensures { result ≡ is_upper b }
{
    b.is_ascii_uppercase()
}

pub fn is_letter(b: u8) -> bool
    ensures { result ≡ is_letter b }
{
    b.is_ascii_alphabetic()
}

pub fn is_word_byte(b: u8) -> bool
    ensures { result ≡ is_word_byte b }
{
    b.is_ascii_alphanumeric()
}

pub fn is_symbol_byte(b: u8) -> bool
    ensures { result ≡ is_symbol_byte b }
{
    is_upper(b) || is_digit(b)
}

pub fn is_name_byte(b: u8) -> bool
    ensures { result ≡ is_name_byte b }
{
    is_lower(b) || is_digit(b)
}

// Whether a byte is of a class.
pub fn passes(class: Class, b: u8) -> bool
    ensures { result ≡ test_of class b }
{
    match class {
        Class::Blank => is_blank(b),
        Class::Digit => is_digit(b),
        Class::Word => is_word_byte(b),
        Class::Symbol => is_symbol_byte(b),
        Class::Name => is_name_byte(b),
    }
}

// Whether all bytes of a word are of a class.
pub fn all_pass(class: Class, word: &[u8]) -> bool
    ensures { result ≡ all (test_of class) word.now }
{
    word.iter().all(|b| passes(class, *b))
}
