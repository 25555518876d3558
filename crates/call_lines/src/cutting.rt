// Texts cut at a byte, and into three lines.
ghost use Rattle.std.specs.Prelude.{◌≡◌, ◌==◌, position};
ghost use Rattle.call_lines.specs.Cutting.{Cut, LinesCut};

use super::Lines;

// The place of the first b.
fn find(s: &[u8], b: u8) -> Option<usize>
    ensures { result ≡ position (λ x. x == b) s.now }
{
    s.iter().position(|x| *x == b)
}

// What stands before the first b, and what behind it.
pub fn cut<'a>(s: &'a [u8], b: u8) -> Option<(&'a [u8], &'a [u8])>
    ensures { Cut b s.now result }
{
    let at = find(s, b)?;
    Some((&s[..at], &s[at + 1..]))
}

// Three lines, each ended by a line feed, and nothing else.
pub fn cut_lines<'a>(s: &'a [u8]) -> Option<Lines<'a>>
    ensures { LinesCut s.now result }
{
    let (budgets, others) = cut(s, b'\n')?;
    let (program, last) = cut(others, b'\n')?;
    let (object, behind) = cut(last, b'\n')?;
    if 0 < behind.len() {
        return None;
    }
    Some(Lines {
        budgets,
        program,
        object,
    })
}
