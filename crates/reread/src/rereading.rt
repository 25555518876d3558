// A text read and written back.
ghost use Rattle.reread.specs.Rereading.{Inside};

use super::NotReread;
use formtable::DEFINITION_TABLE_SIZE;
use language::{FORM_TABLE_SIZE, Refusal, RefusedText};

// The numbers of 8,192 cells.
pub const CELLS_SIZE: usize = 32768;

// A text that is too long, whatever it holds.
fn too_long(refusal: Refusal) -> NotReread {
    NotReread::Refused(RefusedText { refusal, place: 0 })
}

// A program: read to the tables, and from them written to the front of `out`.
pub fn reread_program(
    s: &[u8],
    forms: &mut [u32; FORM_TABLE_SIZE],
    cells: &mut [u32; CELLS_SIZE],
    definitions: &mut [u32; DEFINITION_TABLE_SIZE],
    out: &mut [u8],
) -> Result<usize, NotReread>
    ensures { Inside result out.new }
{
    if 8192 < s.len() {
        return Err(too_long(Refusal::LongProgram));
    }
    let read = programs::read_program(s, forms, cells, definitions)?;
    let count = (read.definitions % 4294967296) as u32;
    program_writer::write_program(forms, cells, definitions, count, out).ok_or(NotReread::Unwritten)
}

// An object: read to the cells, and from them written to the front of `out`.
pub fn reread_object(
    s: &[u8],
    cells: &mut [u32; CELLS_SIZE],
    out: &mut [u8],
) -> Result<usize, NotReread>
    ensures { Inside result out.new }
{
    if 16384 < s.len() {
        return Err(too_long(Refusal::LongObject));
    }
    let read = objects::read_whole_object(s, cells, 0)?;
    objects::write_object(cells, read.value, out).map_err(|_| NotReread::Unwritten)
}
