// The marks of a program's text.
ghost use Rattle.std.specs.Prelude.{◌≡◌, ◌≤◌, length};
ghost use Rattle.language.specs.Numbers.{program_limit};
ghost use Rattle.forms.specs.Readers.{is_opening, is_arrow};
ghost use Rattle.forms.specs.Readings.{Marked, Dotted, Separated, Tested};

use super::{CommaRead, TestRead};
use language::RefusedText;

// The place behind the mark b, which is next from `at` on.
#[inline(always)]
pub fn read_mark(s: &[u8], at: usize, b: u8) -> Result<usize, RefusedText>
    requires { (length s.now ≤ program_limit) × (at ≤ length s.now) }
    ensures { Marked b s.now at result }
{
    let p = lexer::skip_blanks(s, at);
    if lexer::byte_at(s, p) != b {
        let refusal = lexer::refusal(s, p);
        return Err(RefusedText { refusal, place: p });
    }
    Ok(p + 1)
}

// The place behind the dot, if one follows a part that ends before `at`.
pub fn read_dot(s: &[u8], at: usize) -> Option<usize>
    requires { (length s.now ≤ program_limit) × (at ≤ length s.now) }
    ensures { Dotted s.now at result }
{
    let p = lexer::skip_blanks(s, at);
    if lexer::byte_at(s, p) != b'.' {
        return None;
    }
    Some(p + 1)
}

// What follows a form of `[ ]` that ends before `at`.
pub fn read_comma(s: &[u8], at: usize) -> Result<CommaRead, RefusedText>
    requires { (length s.now ≤ program_limit) × (at ≤ length s.now) }
    ensures { Separated s.now at result }
{
    let p = lexer::skip_blanks(s, at);
    match lexer::byte_at(s, p) {
        b',' => Ok(CommaRead::More(p + 1)),
        b']' => Ok(CommaRead::Closed(p + 1)),
        _ => Err(RefusedText {
            refusal: lexer::refusal(s, p),
            place: p,
        }),
    }
}

// Whether b is a mark that a part may begin with.
pub fn is_opening(b: u8) -> bool
    ensures { result ≡ is_opening b }
{
    matches!(b, b'[' | b'%' | b'/' | b'@' | b'{' | b'(')
}

// Whether `->` stands at p.
fn is_arrow(s: &[u8], p: usize) -> bool
    requires { p ≤ program_limit }
    ensures { result ≡ is_arrow s.now p }
{
    lexer::byte_at(s, p) == b'-' && lexer::byte_at(s, p + 1) == b'>'
}

// What follows the first form in `( )`, which ends before `at`.
#[inline(always)]
pub fn read_test(s: &[u8], at: usize) -> Result<TestRead, RefusedText>
    requires { (length s.now ≤ program_limit) × (at ≤ length s.now) }
    ensures { Tested s.now at result }
{
    let p = lexer::skip_blanks(s, at);
    if is_arrow(s, p) {
        return Ok(TestRead::Condition(p + 2));
    }
    match lexer::byte_at(s, p) {
        b'?' => Ok(TestRead::While(p + 1)),
        b')' => Ok(TestRead::Closed(p + 1)),
        _ => Err(RefusedText {
            refusal: lexer::refusal(s, p),
            place: p,
        }),
    }
}
