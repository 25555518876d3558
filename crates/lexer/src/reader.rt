// Where the next word, number or mark stands. A text and a place, and not a slice: a place may lie past the text's end, where
// nothing stands.
ghost use Rattle.std.specs.Prelude.{◌≡◌, ◌≤◌, length};
ghost use Rattle.language.specs.Tokens.{span};
ghost use Rattle.lexer.specs.Classes.{test_of};
ghost use Rattle.lexer.specs.Readings.{Spanned, Skipped, WordSized, NextWord};

use super::{Class, classes};
use language::Token;

// How many bytes at the front of a text are of a class.
pub fn span(s: &[u8], class: Class) -> usize
    ensures { (result ≡ span (test_of class) s.now) × (result ≤ length s.now) }
{
    s.iter()
        .position(|b| !classes::passes(class, *b))
        .unwrap_or(s.len())
}

// The first place from `from` on whose byte is not of a class; the text's end if there is none, or `from` beyond it.
fn past(s: &[u8], from: usize, class: Class) -> usize
    ensures { Spanned class s.now from result }
{
    (from..s.len())
        .find(|p| !classes::passes(class, s[*p]))
        .unwrap_or(from.max(s.len()))
}

// Past the blanks.
pub fn skip_blanks(s: &[u8], at: usize) -> usize
    ensures { Skipped s.now at result }
{
    past(s, at, Class::Blank)
}

// How long the word, number or mark at p is: a run of letters and digits, with a `-` directly before a digit; `->`; or one byte.
#[inline(always)]
pub fn size_at(s: &[u8], p: usize) -> usize
    ensures { WordSized s.now p result }
{
    if s.len() <= p {
        return 0;
    }
    let b = s[p];
    if classes::is_word_byte(b) {
        return past(s, p + 1, Class::Word) - p;
    }
    if b != b'-' {
        return 1;
    }
    match classes::byte_at(s, p + 1) {
        d if classes::is_digit(d) => past(s, p + 2, Class::Word) - p,
        b'>' => 2,
        _ => 1,
    }
}

// The next word, number or mark; at the end and beyond it the text's length and 0.
pub fn next_word(s: &[u8], at: usize) -> Token
    ensures { NextWord s.now at result }
{
    let p = skip_blanks(s, at);
    if s.len() <= p {
        return Token {
            place: s.len(),
            length: 0,
        };
    }
    Token {
        place: p,
        length: size_at(s, p),
    }
}
