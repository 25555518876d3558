// From the bytes of an input to the bytes of the reply.
ghost use Rattle.std.specs.Prelude.{◌≤◌, length};
ghost use Rattle.call_lines.specs.Printing.{Printed};
ghost use Rattle.replies.specs.Replies.{Replied, CellsLent, call_reply, lines_reply};

use super::buffers;
use call_lines::Lines;
use language::Meter;

// The most bytes of an input.
const INPUT_LIMIT: usize = 25000;

// How much of the cell table is lent for so many cells; over the limit none.
fn cells_lent(cells: u32) -> usize
    ensures { CellsLent cells result }
{
    if language::CELL_LIMIT < cells {
        0
    } else {
        4 * cells as usize
    }
}

// Runs the program on the object, and prints what is shown of the answer.
fn answer_call(program: &[u8], object: &[u8], m: Meter, out: &mut [u8]) -> usize
    requires { 16451 ≤ length out.old }
    ensures { Printed (call_reply program.now object.now m) 16451 out.old 0 result out.new }
{
    let mut forms = buffers::zeroed::<u32, { language::FORM_TABLE_SIZE }>();
    let mut table = buffers::zeroed::<u32, { language::CELL_TABLE_SIZE }>();
    let mut output = buffers::zeroed::<u8, { language::WRITTEN_LIMIT }>();
    let n = cells_lent(m.cells);
    let a = nattglod::run(
        program,
        object,
        m.steps,
        m.names,
        m.cells,
        &mut forms,
        &mut table[..n],
        &mut output,
    );
    call_lines::print_answer(out, a, &output)
}

// Three lines: budgets, program, object.
fn answer_lines(l: Lines, out: &mut [u8]) -> usize
    requires { 16451 ≤ length out.old }
    ensures { Printed (lines_reply l.entry.budgets.now l.entry.program.now l.entry.object.now) 16451 out.old 0 result out.new }
{
    let Some(m) = call_lines::read_budgets(l.budgets) else {
        return call_lines::print_other(out);
    };
    answer_call(l.program, l.object, m, out)
}

// The reply to the input stands in the first r bytes; behind it `out` is as it was.
pub fn answer_input(s: &[u8], out: &mut [u8; buffers::REPLY_SIZE]) -> usize
    ensures { Replied s.now out.old result out.new }
{
    if INPUT_LIMIT < s.len() {
        return call_lines::print_other(out);
    }
    match call_lines::cut_lines(s) {
        Some(l) => answer_lines(l, out),
        None => call_lines::print_other(out),
    }
}
