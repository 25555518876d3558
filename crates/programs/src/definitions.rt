// Definitions: names and bodies one after the other, with a record of each in the table of definitions, [name lo, name hi,
// root, place]; and whether a name is defined twice.
ghost use Rattle.std.specs.Prelude.{◌≡◌, ◌+◌, ◌*◌, ◌≤◌, ◌<◌, length};
ghost use Rattle.language.specs.Numbers.{program_limit, definition_limit, form_table_size};
ghost use Rattle.language.specs.Reading.{read_program};
ghost use Rattle.programs.specs.Bodies.{body_at, placed_at, definitions_at};
ghost use Rattle.forms.specs.Readings.{Ready, FormMet};
ghost use Rattle.programs.specs.Definitions.{DefinitionPut, PlacedMet, DefinitionsMet, Compared, TwiceMet, ProgramMet};

use super::ProgramRead;
use forms::Upto;
use language::{Refusal, RefusedText};

// Behind a name: the `=`, the form and the `;`.
fn read_body(s: &[u8], from: Upto, t: &mut [u32], c: &mut [u32]) -> Result<Upto, RefusedText>
    requires { Ready s.now from.next from.forms from.cells }
    ensures { FormMet from.forms from.cells t.old c.old result t.new c.new (body_at s.now from.next) }
{
    let a = forms::read_mark(s, from.next, b'=')?;
    let x = forms::read_form(s, Upto { next: a, ..from }, language::MARK_LIMIT, t, c)?;
    let next = forms::read_mark(s, x.next, b';')?;
    Ok(Upto { next, ..x })
}

// Writes record k of the table of definitions: a packed name, its body's record and its place.
fn put_definition(d: &mut [u32], k: usize, name: u64, root: usize, place: usize)
    requires { (root ≤ program_limit) × (place ≤ program_limit) }
    ensures { DefinitionPut k name root place d.old d.new }
{
    tables::put_record(
        d,
        k,
        tables::low(name),
        tables::high(name),
        root as u32,
        place as u32,
    );
}

// The definition whose name is at the place that `from` says, as record k.
fn read_definition(
    s: &[u8],
    from: Upto,
    t: &mut [u32],
    c: &mut [u32],
    d: &mut [u32],
    k: usize,
) -> Result<Upto, RefusedText>
    requires { Ready s.now from.next from.forms from.cells }
    ensures { PlacedMet from.forms from.cells k t.old c.old d.old result t.new c.new d.new (placed_at s.now from.next) }
{
    let p = from.next;
    let end = p + lexer::size_at(s, p);
    let name = lexer::judge_name(&s[p..end]).map_err(|refusal| RefusedText { refusal, place: p })?;
    let x = read_body(s, Upto { next: end, ..from }, t, c)?;
    put_definition(d, k, name, from.forms, p);
    Ok(x)
}

// Every definition of the text, up to its end.
fn read_definitions(
    s: &[u8],
    t: &mut [u32],
    c: &mut [u32],
    d: &mut [u32],
) -> Result<ProgramRead, RefusedText>
    requires { length s.now ≤ program_limit }
    ensures { DefinitionsMet t.old c.old d.old result t.new c.new d.new (definitions_at s.now 0) }
{
    let mut upto = Upto {
        next: 0,
        forms: 0,
        cells: 0,
    };
    let mut k = 0;
    loop {
        let next = lexer::skip_blanks(s, upto.next);
        if next == s.len() {
            return Ok(ProgramRead {
                definitions: k,
                forms: upto.forms,
                cells: upto.cells,
            });
        }
        upto = read_definition(s, Upto { next, ..upto }, t, c, d, k)?;
        k += 1;
    }
}

// Whether an earlier definition has the name of definition i.
fn is_earlier(d: &[u32], i: usize) -> bool
    requires { i < definition_limit }
    ensures { Compared d.now i result }
{
    let lo = tables::at(d, i * 4);
    let hi = tables::at(d, i * 4 + 1);
    (0..i as u32).any(|j| formtable::has_name(d, j, lo, hi))
}

// The place of the first of n names that an earlier definition has, if any has.
fn find_twice(d: &[u32], n: usize) -> Option<usize>
    requires { n ≤ definition_limit }
    ensures { TwiceMet d.now n result }
{
    (0..n)
        .find(|i| is_earlier(d, *i))
        .map(|i| tables::at(d, i * 4 + 3) as usize)
}

// A whole program: its forms in `t`, its constants in the cells `c`, its definitions in `d`.
pub fn read_program(
    s: &[u8],
    t: &mut [u32],
    c: &mut [u32],
    d: &mut [u32],
) -> Result<ProgramRead, RefusedText>
    requires { (length s.now ≤ program_limit) × (length t.old ≡ form_table_size) × (length d.old ≡ 4 * definition_limit) }
    ensures { ProgramMet s.now t.old c.old d.old result t.new c.new d.new (read_program s.now) }
{
    let read = read_definitions(s, t, c, d)?;
    if language::FORM_LIMIT < read.forms {
        return Err(RefusedText {
            refusal: Refusal::TooMany,
            place: 0,
        });
    }
    if language::DEFINITION_LIMIT < read.definitions {
        return Err(RefusedText {
            refusal: Refusal::TooMany,
            place: 0,
        });
    }
    match find_twice(d, read.definitions) {
        Some(place) => Err(RefusedText {
            refusal: Refusal::NameTwice,
            place,
        }),
        None => Ok(read),
    }
}
