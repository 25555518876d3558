// Parts that hold no form: words, names and constants; and the object of `{f,x}`.
ghost use Rattle.std.specs.Prelude.{◌≡◌, ◌+◌, ◌≤◌, ◌<◌, length};
ghost use Rattle.language.specs.Numbers.{program_limit};
ghost use Rattle.formtable.specs.Kinds.{number_of_kind};
ghost use Rattle.forms.specs.Readers.{bound_at, constant_read};
ghost use Rattle.forms.specs.Readings.{Ready, ObjectMet, FormMet, WordPut, PlainMet, part_kind, part_word};

use super::{Upto, marks};
use formtable::Kind;
use language::RefusedText;
use lexer::Part;
use objects::ObjectRead;

// Writes record n: a kind, how many parts the form has, and a word.
pub fn put_word(t: &mut [u32], n: usize, kind: u32, parts: u32, word: u64)
    ensures { WordPut n kind parts word t.old t.new }
{
    tables::put_record(
        t,
        n,
        kind,
        parts,
        (word % 4294967296) as u32,
        (word / 4294967296) as u32,
    );
}

// The kind of a part and its word.
fn kind_and_word(part: Part) -> (Kind, u64)
    ensures { (number_of_kind result.0 ≡ part_kind part) × (result.1 ≡ part_word part) }
{
    match part {
        Part::Primitive(word) => (Kind::Word, u64::from(u32::from(word))),
        Part::Select(k) => (Kind::Select, u64::from(k)),
        Part::SelectRight(k) => (Kind::SelectRight, u64::from(k)),
        Part::Name(word) => (Kind::Name, word),
    }
}

// A primitive word, a selector or a name at the place that `from` says, as the next record.
pub fn read_plain(s: &[u8], from: Upto, t: &mut [u32]) -> Result<Upto, RefusedText>
    requires { (from.next ≤ length s.now) × (from.forms ≤ program_limit) }
    ensures { PlainMet s.now from.next from.forms from.cells t.old result t.new }
{
    let p = from.next;
    let next = p + lexer::size_at(s, p);
    let part = lexer::judge_part(&s[p..next]).map_err(|refusal| RefusedText { refusal, place: p })?;
    let (kind, word) = kind_and_word(part);
    put_word(t, from.forms, u32::from(kind), 0, word);
    Ok(Upto {
        next,
        forms: from.forms + 1,
        cells: from.cells,
    })
}

// Behind a `%`: the object is read to the next cells, its value to the next record.
pub fn read_constant(
    s: &[u8],
    from: Upto,
    room: u32,
    t: &mut [u32],
    c: &mut [u32],
) -> Result<Upto, RefusedText>
    requires { Ready s.now from.next (from.forms + 1) from.cells }
    ensures { FormMet from.forms from.cells t.old c.old result t.new c.new (constant_read s.now from.next room) }
{
    let x = objects::read_object(s, from.next, room, c, from.cells)?;
    put_word(
        t,
        from.forms,
        Kind::Constant as u32 + x.value.tag,
        0,
        x.value.word,
    );
    Ok(Upto {
        next: x.next,
        forms: from.forms + 1,
        cells: x.cells,
    })
}

// Behind the form of `{f,x}`: the comma, the object, which is read to the cells from `used` on, and the `}`.
#[inline(always)]
pub fn read_bound(
    s: &[u8],
    at: usize,
    room: u32,
    c: &mut [u32],
    used: u32,
) -> Result<ObjectRead, RefusedText>
    requires { Ready s.now at 0 used }
    ensures { ObjectMet used c.old result c.new (bound_at s.now at room) }
{
    let a = marks::read_mark(s, at, b',')?;
    let x = objects::read_object(s, a, room, c, used)?;
    let next = marks::read_mark(s, x.next, b'}')?;
    Ok(ObjectRead { next, ..x })
}
