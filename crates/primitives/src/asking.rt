// Asking for a word's cells, by the rule that the table has for it.
ghost use Rattle.std.specs.Prelude.{◌<◌};
ghost use Rattle.lexer.specs.Vocabulary.{op_code, op_of, rule_number};
ghost use Rattle.primitives.specs.Asking.{CellsAsked, Clipped, Reserving};

use super::Reserved;
use language::{Meter, Stop, Stopped};
use lexer::{CellRule, Primitive};

// How many cells a rule asks for, of n places and, for the last rule, of rows of w.
fn cells_by(rule: CellRule, n: u64, w: u64) -> u64
    requires { (n < 4294967296) × (w < 4294967296) }
    ensures { CellsAsked (rule_number rule) n w result }
{
    match rule {
        CellRule::NoCell => 0,
        CellRule::One => 1,
        CellRule::OneLess => n.saturating_sub(1),
        CellRule::AsMany => n,
        CellRule::OneMore => n + 1,
        CellRule::ThreeEach => 3 * n,
        CellRule::Rows => w + w * n,
    }
}

// The number, or the largest one of 32 bits.
fn clipped(x: u64) -> u32
    ensures { Clipped x result }
{
    u32::try_from(x).unwrap_or(u32::MAX)
}

// Asks for a word's cells, at once. No table has more than 4,096 cells.
pub fn reserve(c: &[u32], word: Primitive, n: u32, w: u32, m: Meter) -> Result<Reserved, Stopped>
    ensures { Reserving c.now (op_code (op_of word)) n w m result }
{
    let first = cells::free_cell(c, m);
    if language::CELL_LIMIT < first {
        return Err(Stopped {
            why: Stop::CellsSpent,
            meter: m,
        });
    }
    let need = clipped(cells_by(word.rule(), u64::from(n), u64::from(w)));
    let meter = m.charge_cells(need)?;
    Ok(Reserved { first, meter })
}
