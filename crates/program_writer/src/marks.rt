// The most marks open at once in a text, 33 if more than 32.
ghost use Rattle.std.specs.Prelude.{◌≡◌, suc, min};
ghost use Rattle.program_writer.specs.Depths.{ObjectDepth, PlacesDepth, OwnDepth, FormDepth, PartDepth, PartsDepth};

use super::{Depth, forms};
use language::Val;

// More than 32 marks.
const TOO_DEEP: u32 = 33;

// One mark more, up to 33.
fn one_more(marks: u32) -> u32
    ensures { result ≡ min (suc marks) 33 }
{
    marks.min(language::MARK_LIMIT) + 1
}

// The marks of what v stands for, up to `limit`.
#[cycle(marks_of_objects)]
fn object_marks(c: &[u32], v: Val, limit: u32) -> u32
    ensures { ObjectDepth c.now v limit result }
{
    if !cells::is_sequence(v) {
        return 0;
    }
    if limit == 0 {
        return 0;
    }
    places_marks(c, v, limit - 1) + 1
}

// The most marks of the places of a sequence, up to `limit`.
#[cycle(marks_of_objects)]
fn places_marks(c: &[u32], v: Val, limit: u32) -> u32
    ensures { PlacesDepth c.now v limit result }
{
    let mut s = v;
    let mut most: u32 = 0;
    for _ in 0..cells::size(v) {
        most = most.max(object_marks(c, cells::head(c, s), limit));
        s = cells::tail(c, s);
    }
    most
}

// The marks of a record's own object, up to 33: 0 if it has none.
fn own_marks(c: &[u32], row: Val) -> u32
    ensures { OwnDepth c.now row result }
{
    let kind = row.tag;
    let word = row.word;
    if kind < formtable::CONSTANT {
        return 0;
    }
    object_marks(
        c,
        Val {
            tag: kind % language::TAGS,
            word,
        },
        TOO_DEEP,
    )
}

// The marks of the form at record i.
#[cycle(marks_of_forms)]
pub fn form_marks(t: &[u32], c: &[u32], i: u32) -> Depth
    ensures { FormDepth t.now c.now i result }
{
    if forms::RECORDS <= i {
        return Depth { next: i, marks: 0 };
    }
    let row = cells::value_at(t, i);
    let arity = tables::at(t, i as usize * 4 + 1);
    let d = parts_marks(t, c, row.tag, arity, i + 1);
    let inside = d.marks.max(own_marks(c, row));
    if row.tag < formtable::CONSTRUCT {
        return Depth {
            next: d.next,
            marks: inside,
        };
    }
    Depth {
        next: d.next,
        marks: one_more(inside),
    }
}

// The most marks of as many parts as `arity` says of a form of this kind.
#[cycle(marks_of_forms)]
fn parts_marks(t: &[u32], c: &[u32], kind: u32, arity: u32, from: u32) -> Depth
    ensures { PartsDepth t.now c.now kind arity from result }
{
    let mut i = from;
    let mut most: u32 = 0;
    for _ in 0..arity {
        let d = part_marks(t, c, kind, i);
        i = d.next;
        most = most.max(d.marks);
    }
    Depth {
        next: i,
        marks: most,
    }
}

// The marks of the part at record i of a form of this kind, with its brackets where it has them.
#[cycle(marks_of_forms)]
fn part_marks(t: &[u32], c: &[u32], kind: u32, i: u32) -> Depth
    ensures { PartDepth t.now c.now kind i result }
{
    let d = form_marks(t, c, i);
    if tables::at(t, i as usize * 4) != formtable::CHAIN {
        return d;
    }
    if !forms::takes_part(kind) {
        return d;
    }
    Depth {
        next: d.next,
        marks: one_more(d.marks),
    }
}
