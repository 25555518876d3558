// The two texts of a run call, read one after the other into the lent tables, and then the run.
ghost use Rattle.std.specs.Prelude.{◌*◌, ◌≤◌, ◌≡◌, length};
ghost use Rattle.language.specs.Numbers.{form_limit, definition_limit};
ghost use Rattle.nattglod.specs.Calls.{lends, WithinLimits, TextsAnswered};
ghost use Rattle.nattglod.specs.Stages.{Small, MainAnswered, ObjectAnswered};

use super::{answers, ends};
use language::{Answer, Meter, Refusal, Text};
use objects::ObjectRead;
use programs::ProgramRead;

// Applies `main` to the object that was read, where it and the program stand in the first cells.
fn answer_main(
    b: Meter,
    forms: &mut [u32],
    definitions: &[u32],
    read: ProgramRead,
    c: &mut [u32],
    x: ObjectRead,
    output: &mut [u8],
) -> Answer
    requires { (read.forms ≤ form_limit) × (read.definitions ≤ definition_limit) × (x.cells ≤ b.cells) }
    ensures { MainAnswered b forms.old read.forms definitions.now read.definitions c.old x.cells x.value output.old result output.new }
{
    let m = Meter {
        cells: b.cells - x.cells,
        ..b
    };
    let total = read.forms as u32;
    let many = read.definitions as u32;
    let ended = program_runner::apply_main(forms, total, definitions, many, c, x.value, m);
    ends::answer_end(b, c, ended, output)
}

// Reads the object behind the program's cells: the object's 6 to 9, 13, or the run.
fn answer_object(
    object: &[u8],
    b: Meter,
    forms: &mut [u32],
    definitions: &[u32],
    read: ProgramRead,
    c: &mut [u32],
    output: &mut [u8],
) -> Answer
    requires { Small (length object.now) b (length forms.old) read.forms read.definitions (length c.old) read.cells }
    ensures { ObjectAnswered object.now b forms.old read.forms definitions.now read.definitions c.old read.cells output.old result output.new }
{
    let x = match objects::read_whole_object(object, c, read.cells) {
        Err(e) => return answers::at(e, Text::Object),
        Ok(x) => x,
    };
    if b.cells < x.cells {
        return answers::bare(Refusal::FewCells);
    }
    answer_main(b, forms, definitions, read, c, x, output)
}

// Reads the program, its definitions into a table of 512 numbers: the program's 6 to 11, or what the object gives.
fn answer_program(
    program: &[u8],
    object: &[u8],
    b: Meter,
    forms: &mut [u32],
    c: &mut [u32],
    definitions: &mut [u32],
    output: &mut [u8],
) -> Answer
    requires within_limits { WithinLimits (length program.now) (length object.now) b (length forms.old) (length c.old) }
    requires definitions_len { length definitions.old ≡ 4 * definition_limit }
    ensures { TextsAnswered program.now object.now b (lends forms.old c.old output.old) result output.new }
{
    match programs::read_program(program, forms, c, definitions) {
        Err(e) => answers::at(e, Text::Program),
        Ok(read) => answer_object(object, b, forms, definitions, read, c, output),
    }
}

// Room for 128 definitions.
fn definition_table() -> [u32; formtable::DEFINITION_TABLE_SIZE]
    ensures { length result ≡ 4 * definition_limit }
{
    [0; formtable::DEFINITION_TABLE_SIZE]
}

// Reads both texts, and runs the program on the object.
pub fn answer_texts(
    program: &[u8],
    object: &[u8],
    b: Meter,
    forms: &mut [u32],
    c: &mut [u32],
    output: &mut [u8],
) -> Answer
    requires { WithinLimits (length program.now) (length object.now) b (length forms.old) (length c.old) }
    ensures { TextsAnswered program.now object.now b (lends forms.old c.old output.old) result output.new }
{
    let mut definitions = definition_table();
    answer_program(program, object, b, forms, c, &mut definitions, output)
}
