// The budgets in a call's first line: three numerals with one space between.
ghost use Rattle.std.specs.Prelude.{◌≡◌};
ghost use Rattle.std.specs.List.{list_all};
ghost use Rattle.language.specs.Tokens.{is_digit};
ghost use Rattle.call_lines.specs.Budgets.{NumeralRead, ThreeRead, BudgetsRead};

use super::cutting;
use language::Meter;

// Whether only digits stand in the word.
fn all_digits(word: &[u8]) -> bool
    ensures { result ≡ list_all is_digit word.now }
{
    word.iter().all(|b| lexer::is_digit(*b))
}

// One to seven digits without a leading zero.
fn read_numeral(word: &[u8]) -> Option<u32>
    ensures { NumeralRead word.now result }
{
    let n = word.len();
    if n == 0 {
        return None;
    }
    if 7 < n {
        return None;
    }
    if !all_digits(word) {
        return None;
    }
    if n == 1 {
        return Some(lexer::value(word) as u32);
    }
    if word[0] == b'0' {
        return None;
    }
    Some(lexer::value(word) as u32)
}

// The budgets that three numerals say.
fn read_three(first: &[u8], second: &[u8], third: &[u8]) -> Option<Meter>
    ensures { ThreeRead first.now second.now third.now result }
{
    let steps = read_numeral(first)?;
    let names = read_numeral(second)?;
    let cells = read_numeral(third)?;
    Some(Meter {
        steps,
        names,
        cells,
    })
}

// The budgets in a line.
pub fn read_budgets(line: &[u8]) -> Option<Meter>
    ensures { BudgetsRead line.now result }
{
    let (first, others) = cutting::cut(line, b' ')?;
    let (second, third) = cutting::cut(others, b' ')?;
    if cutting::cut(third, b' ').is_some() {
        return None;
    }
    read_three(first, second, third)
}
