// The readers of programs and objects for a program in another language, under names of C. The tables are the caller's.
#![tactic(auto)]

ghost use Rattle.std.specs.Prelude.{◌≡◌, length};
ghost use Rattle.language.specs.Refusals.{number_of};
ghost use Rattle.reading_export.specs.Numbers.{joined, program_call, object_call};

use language::Refusal;

// An answer's number and place as one number.
fn join(number: u32, place: usize) -> u64
    ensures { result ≡ joined number place }
{
    u64::from(number) * 4294967296 + (place % 4294967296) as u64
}

// A refusal's number and place as one number.
fn refused(refusal: Refusal, place: usize) -> u64
    ensures { result ≡ joined (number_of refusal) place }
{
    join(u32::from(refusal), place)
}

// Reads a program to the form table, the cells and the table of definitions: 20 and how many forms it has, or the refusal.
#[unsafe(no_mangle)]
pub extern "C" fn nattglod_read_program(
    s: &[u8],
    forms: &mut [u32],
    cells: &mut [u32],
    definitions: &mut [u32],
) -> u64
    ensures { result ≡ program_call s.now (length forms.old) (length definitions.old) }
{
    if language::PROGRAM_LIMIT < s.len() {
        return refused(Refusal::LongProgram, 0);
    }
    if forms.len() != language::FORM_TABLE_SIZE {
        return refused(Refusal::CellsOver, 0);
    }
    if definitions.len() != formtable::DEFINITION_TABLE_SIZE {
        return refused(Refusal::CellsOver, 0);
    }
    match programs::read_program(s, forms, cells, definitions) {
        Err(e) => refused(e.refusal, e.place),
        Ok(read) => join(language::DONE, read.forms),
    }
}

// Reads an object to the cells: 20 and how many cells it needs, or the refusal.
#[unsafe(no_mangle)]
pub extern "C" fn nattglod_read_object(s: &[u8], cells: &mut [u32]) -> u64
    ensures { result ≡ object_call s.now }
{
    if language::OBJECT_LIMIT < s.len() {
        return refused(Refusal::LongObject, 0);
    }
    match objects::read_whole_object(s, cells, 0) {
        Err(e) => refused(e.refusal, e.place),
        Ok(read) => join(language::DONE, read.cells as usize),
    }
}
