// The calls themselves: 1 to 5 touch nothing, and after all other answers both tables are zero throughout.
ghost use Rattle.std.specs.Prelude.{◌≡◌, length, replicate};
ghost use Rattle.nattglod.specs.Calls.{budgets, lends, RunAnswered, early_refusal};
ghost use Rattle.nattglod.specs.Stages.{table_refusal};

use super::{answers, texts};
use language::{Answer, Meter, Refusal};

// Refused if there are too many cells or a table has another length.
#[tactic(auto, unfolding(crate::specs::Stages::table_refusal))]
fn table_refusal(budget: u32, forms: usize, cells: usize) -> Result<(), Refusal>
    ensures { result ≡ table_refusal budget forms cells }
{
    if language::CELL_LIMIT < budget
        || forms != language::FORM_TABLE_SIZE
        || cells != 4 * budget as usize
    {
        return Err(Refusal::CellsOver);
    }
    Ok(())
}

// Refused if a text is too long, a budget too large or a table of another length: the first that holds, in the order of 1 to 5.
#[tactic(auto, unfolding(crate::specs::Calls::early_refusal, crate::specs::Stages::table_refusal))]
fn early_refusal(
    program: usize,
    object: usize,
    b: Meter,
    forms: usize,
    cells: usize,
) -> Result<(), Refusal>
    ensures { result ≡ early_refusal program object b forms cells }
{
    if language::PROGRAM_LIMIT < program {
        return Err(Refusal::LongProgram);
    }
    if language::OBJECT_LIMIT < object {
        return Err(Refusal::LongObject);
    }
    if language::STEP_LIMIT < b.steps {
        return Err(Refusal::StepsOver);
    }
    if language::NAME_LIMIT < b.names {
        return Err(Refusal::NamesOver);
    }
    table_refusal(b.cells, forms, cells)
}

// Makes both tables zero throughout.
fn zero_tables(forms: &mut [u32], cells: &mut [u32])
    ensures { (forms.new ≡ replicate (length forms.old) 0) × (cells.new ≡ replicate (length cells.old) 0) }
{
    tables::zero_all(forms);
    tables::zero_all(cells);
}

// Runs a program on an object: the form table has 8,192 numbers and the cell table four to each budgeted cell.
pub fn run(
    program: &[u8],
    object: &[u8],
    steps: u32,
    names: u32,
    cells: u32,
    forms: &mut [u32],
    cell_table: &mut [u32],
    output: &mut [u8],
) -> Answer
    ensures { RunAnswered program.now object.now (budgets steps names cells) (lends forms.old cell_table.old output.old) result forms.new cell_table.new output.new }
{
    let b = Meter {
        steps,
        names,
        cells,
    };
    if let Err(refusal) = early_refusal(
        program.len(),
        object.len(),
        b,
        forms.len(),
        cell_table.len(),
    ) {
        return answers::bare(refusal);
    }
    let answer = texts::answer_texts(program, object, b, forms, cell_table, output);
    zero_tables(forms, cell_table);
    answer
}
