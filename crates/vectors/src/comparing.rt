// One case: run, and compared with what it expects.
ghost use Rattle.std.specs.Prelude.{◌≡◌, IsNone};

use crate::cases::Case;
use crate::differences::{Difference, Field};
use crate::lent::{self, Lent, TEXT_ROOM, Texts};
use crate::printing;
use language::Answer;
use std::fs::File;
use std::io;

// The first of the six numbers that differs.
fn differing_number(a: Answer, b: Answer) -> Option<Difference>
    ensures { a ≡ b → IsNone result }
{
    let numbers = [
        (Field::Number, a.number, b.number),
        (Field::Place, a.place, b.place),
        (Field::Text, a.text, b.text),
        (Field::Steps, a.steps, b.steps),
        (Field::Cells, a.cells, b.cells),
        (Field::Length, a.length, b.length),
    ];
    let (field, _, _) = numbers.iter().find(|(_, x, y)| *x != *y)?;
    Some(Difference::of(*field))
}

// Where the answer or what stands in the buffers is not as the case expects.
fn first_difference(c: &Case, text: &[u8], a: Answer, lent: &Lent) -> Option<Difference> {
    differing_number(c.answer, a)
        .or_else(|| lent.output_difference(c, text))
        .or_else(|| lent.table_difference(c))
}

// Reads the next n bytes of the file, as many as there is room for.
fn read_text<'a>(file: &mut File, room: &'a mut [u8], n: u32) -> io::Result<&'a [u8]> {
    let n = (n as usize).min(room.len());
    let text = &mut room[..n];
    streams::read_full(file, text)?;
    Ok(text)
}

// Runs case k on its texts, prints where it is not as expected, and gives whether all agrees.
fn compare(rt: &HostRuntime, c: &Case, texts: Texts<'_>, k: u64) -> io::Result<bool> {
    let mut forms = streams::filled(7);
    let mut table = streams::filled(7);
    let mut output = streams::filled(9);
    let a = lent::run(c, texts, &mut forms, &mut table, &mut output);
    let lent = Lent {
        forms: &forms,
        table: &table,
        output: &output,
    };
    if let Some(d) = first_difference(c, texts.output, a, &lent) {
        printing::print_difference(rt, k, d, c.answer, a)?;
        return Ok(false);
    }
    Ok(true)
}

// Reads the three texts of case k, and runs it.
pub fn run_case(rt: &HostRuntime, file: &mut File, c: &Case, k: u64) -> io::Result<bool> {
    let mut program: [u8; TEXT_ROOM] = streams::filled(0);
    let mut object: [u8; TEXT_ROOM] = streams::filled(0);
    let mut text: [u8; TEXT_ROOM] = streams::filled(0);
    let texts = Texts {
        program: read_text(file, &mut program, c.program)?,
        object: read_text(file, &mut object, c.object)?,
        output: read_text(file, &mut text, c.text)?,
    };
    compare(rt, c, texts, k)
}
