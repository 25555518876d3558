// What is printed after a run: the line of six numbers, the line of the text; or 99.
ghost use Rattle.std.specs.Prelude.{◌+◌, ◌≤◌, length, [], ◌∷◌, ◌++◌};
ghost use Rattle.language.specs.Numbers.{written_limit};
ghost use Rattle.language.specs.Bytes.{bytes};
ghost use Rattle.language.specs.Writing.{decimal};
ghost use Rattle.language.specs.Fprun.{line, numbers};
ghost use Rattle.call_lines.specs.Printing.{Printed, shown_as};

use language::Answer;

// Writes the digits of n and the byte b behind them from the place `at` on, and gives the place behind them.
fn print_number(out: &mut [u8], at: usize, n: u32, b: u8) -> usize
    requires { at + 11 ≤ length out.old }
    ensures { Printed (decimal n ++ (b ∷ [])) 11 out.old at result out.new }
{
    let mut a = [0u8; 20];
    let first = objects::digits(u64::from(n), &mut a);
    let end = at + (20 - first);
    objects::put_text(out, at, &a[first..]);
    out[end] = b;
    end + 1
}

// Writes the six numbers and a line feed to the front of the output, and gives the place behind them.
pub fn print_numbers(out: &mut [u8], a: Answer) -> usize
    requires { 66 ≤ length out.old }
    ensures { Printed (line (numbers a)) 66 out.old 0 result out.new }
{
    let number = print_number(out, 0, a.number, b' ');
    let place = print_number(out, number, a.place, b' ');
    let text = print_number(out, place, a.text, b' ');
    let steps = print_number(out, text, a.steps, b' ');
    let cells = print_number(out, steps, a.cells, b' ');
    print_number(out, cells, a.length, b'\n')
}

// Writes the text and a line feed from the place `at` on, and gives the place behind them.
fn print_text(out: &mut [u8], at: usize, text: &[u8]) -> usize
    requires { at + length text.now + 1 ≤ length out.old }
    ensures { Printed (line text.now) (length text.now + 1) out.old at result out.new }
{
    let end = at + text.len();
    objects::put_text(out, at, text);
    out[end] = b'\n';
    end + 1
}

// Writes what is shown of an answer to the front of the output: the six numbers, and after 20 the text.
pub fn print_answer(out: &mut [u8], a: Answer, text: &[u8]) -> usize
    requires { (16451 ≤ length out.old) × (length text.now ≤ written_limit) }
    ensures { Printed (shown_as a text.now) 16451 out.old 0 result out.new }
{
    let at = print_numbers(out, a);
    if a.number != language::DONE {
        return at;
    }
    let n = text.len().min(a.length as usize);
    print_text(out, at, &text[..n])
}

// Writes what is shown of input of another shape.
pub fn print_other(out: &mut [u8]) -> usize
    requires { 3 ≤ length out.old }
    ensures { Printed (line (bytes "99")) 3 out.old 0 result out.new }
{
    objects::put_text(out, 0, b"99\n");
    3
}
