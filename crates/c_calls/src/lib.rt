// The calls open to programs in C, Rust and other languages: a slice is a pointer and a length.
#![tactic(auto)]

ghost use Rattle.nattglod.specs.Calls.{budgets, lends};
ghost use Rattle.c_calls.specs.Told.{Told, RunTold};

use language::Answer;

// Writes the six numbers of an answer, as far as there is room for them.
fn tell(answer: &mut [u32], r: Answer)
    ensures { Told answer.old r answer.new }
{
    let six = [r.number, r.place, r.text, r.steps, r.cells, r.length];
    let n = answer.len().min(six.len());
    answer[..n].copy_from_slice(&six[..n]);
}

// A run. The answer's six numbers stand in the first six places of `answer` afterwards.
#[unsafe(no_mangle)]
pub extern "C" fn nattglod_run(
    program: &[u8],
    object: &[u8],
    steps: u32,
    names: u32,
    cells: u32,
    forms: &mut [u32],
    cell_table: &mut [u32],
    output: &mut [u8],
    answer: &mut [u32],
)
    ensures { RunTold program.now object.now (budgets steps names cells) (lends forms.old cell_table.old output.old) answer.old forms.new cell_table.new output.new answer.new }
{
    let r = nattglod::run(
        program, object, steps, names, cells, forms, cell_table, output,
    );
    tell(answer, r);
}
