// What a case's run is lent, and what stands in it afterwards.
ghost use Rattle.std.specs.Prelude.{◌≡◌, ◌<◌, ◌≤◌, length, IfSome};

use crate::cases::{Case, Table};
use crate::differences::{Difference, Field};
use language::{Answer, Refusal};

// The bytes of an output, and the most of each text.
pub const TEXT_ROOM: usize = 20000;

// Four numbers to each of 4,100 cells: a few over the limit, so that cases past it can be run.
pub const CELL_ROOM: usize = 16400;

// A case's texts, and the output that it expects.
#[derive(Clone, Copy)]
pub struct Texts<'a> {
    pub program: &'a [u8],
    pub object: &'a [u8],
    pub output: &'a [u8],
}

// What stands in the tables and in the output after a run that was lent them full of 7 and full of 9.
#[derive(Clone, Copy)]
pub struct Lent<'a> {
    pub forms: &'a [u32],
    pub table: &'a [u32],
    pub output: &'a [u8],
}

// How much of the cell table is lent for so many cells: four numbers to each.
fn cells_lent(cells: u32) -> usize
    ensures { result ≤ 16400 }
{
    ((cells % 4194304 * 4) as usize).min(CELL_ROOM)
}

// What stands in the tables afterwards: 1 to 5 touch nothing, after all others they are zero.
fn left_in_tables(number: u32) -> u32
    ensures untouched { number ≤ 5 → result ≡ 7 }
    ensures zeroed { 5 < number → result ≡ 0 }
{
    if number <= u32::from(Refusal::CellsOver) {
        7
    } else {
        0
    }
}

// The first place of a stretch where something else stands than the case expects: what `wanted` says, but for an entry that
// the case names. The stretch begins at this place of the table.
fn first_other<T: Copy + Into<u32>, F: Fn(usize) -> u32>(
    c: &Case,
    table: Table,
    from: usize,
    stretch: &[T],
    wanted: F,
) -> Option<usize>
    requires { F.IsAlwaysCallable wanted }
    ensures { IfSome result (λ i. i < length stretch.now) }
{
    let mut entries = stretch.iter().enumerate();
    if !c.names(table) {
        return entries.position(|(i, x)| (*x).into() != wanted(i));
    }
    entries.position(|(i, x)| {
        (*x).into() != c.expected(table, from.saturating_add(i), wanted(i))
    })
}

// Runs the case on these texts.
pub fn run(
    c: &Case,
    texts: Texts<'_>,
    forms: &mut [u32; language::FORM_TABLE_SIZE],
    table: &mut [u32; CELL_ROOM],
    output: &mut [u8; TEXT_ROOM],
) -> Answer {
    let n = cells_lent(c.cells);
    let room = (c.room as usize).min(TEXT_ROOM);
    nattglod::run(
        texts.program,
        texts.object,
        c.steps,
        c.names,
        c.cells,
        forms,
        &mut table[..n],
        &mut output[..room],
    )
}

impl<'a> Lent<'a> {
    // Where the output is not as the case expects: the text in front, and 9 in every byte behind it.
    pub fn output_difference(&self, c: &Case, text: &[u8]) -> Option<Difference> {
        let output = self.output;
        let n = text.len().min(output.len());
        if let Some(place) = first_other(c, Table::Output, 0, &output[..n], |i| {
            text.get(i).map_or(9, |b| u32::from(*b))
        }) {
            return Some(Difference::at(Field::Output, place));
        }
        let i = first_other(c, Table::Output, n, &output[n..], |_| 9)?;
        Some(Difference::at(Field::Output, n + i))
    }

    // Where the tables are not as the case expects: all is alike but in the cells behind those lent.
    pub fn table_difference(&self, c: &Case) -> Option<Difference> {
        let v = left_in_tables(c.answer.number);
        if let Some(place) = first_other(c, Table::Forms, 0, self.forms, |_| v) {
            return Some(Difference::at(Field::FormTable, place));
        }
        let table = self.table;
        let n = cells_lent(c.cells).min(table.len());
        if let Some(place) = first_other(c, Table::Cells, 0, &table[..n], |_| v) {
            return Some(Difference::at(Field::CellTable, place));
        }
        let i = first_other(c, Table::Cells, n, &table[n..], |_| 7)?;
        Some(Difference::at(Field::NotLent, n + i))
    }
}
