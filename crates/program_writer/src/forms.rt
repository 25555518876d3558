// Walks over forms: what opens a form, its parts with what stands behind each, what ends it.
ghost use Rattle.std.specs.Prelude.{◌≡◌};
ghost use Rattle.program_writer.specs.Layout.{takes_kind};
ghost use Rattle.program_writer.specs.Walks.{MarkBehind, BehindWalked, OpeningMark, Kept, PlainWalked, OpeningWalked, EndingWalked, FormWalked, PartWalked, PartsWalked};

use super::Writer;
use language::Val;

// No record is numbered so high.
pub const RECORDS: u32 = language::FORM_LIMIT as u32;

// Whether a chain that is a part of a form of this kind stands in brackets: in a chain, and behind `/`, `@` and `{`.
#[tactic(auto, unfolding(crate::specs::Layout::takes_kind))]
pub fn takes_part(kind: u32) -> bool
    ensures { result ≡ takes_kind kind }
{
    match kind {
        formtable::CHAIN | formtable::INSERT | formtable::APPLY_ALL => true,
        _ => formtable::LAST_CONSTANT < kind,
    }
}

// What stands behind a part, with `left` parts to come.
fn mark_behind(kind: u32, left: u32) -> &'static [u8]
    ensures { MarkBehind kind left result.now }
{
    if formtable::LAST_CONSTANT < kind {
        return b",";
    }
    if left == 0 {
        return match kind {
            formtable::CONSTRUCT => b"]",
            formtable::CONDITION | formtable::WHILE => b")",
            _ => b"",
        };
    }
    match kind {
        formtable::CHAIN => b".",
        formtable::CONSTRUCT => b",",
        formtable::CONDITION => if left == 1 { b";" } else { b"->" },
        formtable::WHILE => b"?",
        _ => b"",
    }
}

// Walks over what stands behind a part, with `left` parts to come.
fn walk_behind(w: &mut Writer<'_>, kind: u32, left: u32)
    ensures kept { Kept w.old w.new }
    ensures wrote { BehindWalked kind left w.old.at w.new.at w.old.out.now w.new.out.now }
{
    w.text(mark_behind(kind, left));
}

// What opens a form that has parts or an object.
fn opening_mark(kind: u32) -> &'static [u8]
    ensures { OpeningMark kind result.now }
{
    if formtable::LAST_CONSTANT < kind {
        return b"{";
    }
    match kind {
        formtable::CHAIN => b"",
        formtable::CONSTRUCT => b"[",
        formtable::INSERT => b"/",
        formtable::APPLY_ALL => b"@",
        formtable::CONDITION | formtable::WHILE => b"(",
        _ => b"%",
    }
}

// Walks over a primitive, a selector or a name.
fn walk_plain(w: &mut Writer<'_>, c: &[u32], row: Val)
    ensures kept { Kept w.old w.new }
    ensures wrote { PlainWalked c.now row w.old.at w.new.at w.old.out.now w.new.out.now }
{
    let kind = row.tag;
    let word = row.word;
    if kind == formtable::WORD {
        w.word((word % 4294967296) as u32);
        return;
    }
    if kind == formtable::NAME {
        w.name(word);
        return;
    }
    w.constant(
        c,
        Val {
            tag: language::POSITIVE,
            word,
        },
    );
    if kind != formtable::SELECT_RIGHT {
        return;
    }
    w.mark(b'r');
}

// Walks over what stands before a form's parts: all of it, if it has none.
fn walk_opening(w: &mut Writer<'_>, c: &[u32], row: Val)
    ensures kept { Kept w.old w.new }
    ensures wrote { OpeningWalked c.now row w.old.at w.new.at w.old.out.now w.new.out.now }
{
    let kind = row.tag;
    let word = row.word;
    if kind < formtable::CHAIN {
        walk_plain(w, c, row);
        return;
    }
    w.text(opening_mark(kind));
    if kind <= formtable::WHILE {
        return;
    }
    if formtable::LAST_CONSTANT < kind {
        return;
    }
    w.constant(
        c,
        Val {
            tag: kind % language::TAGS,
            word,
        },
    );
}

// Walks over what stands behind all of a form's parts: the object of a `{f,x}`, and the `}`.
fn walk_ending(w: &mut Writer<'_>, c: &[u32], row: Val)
    ensures kept { Kept w.old w.new }
    ensures wrote { EndingWalked c.now row w.old.at w.new.at w.old.out.now w.new.out.now }
{
    let kind = row.tag;
    let word = row.word;
    if kind < formtable::BU {
        return;
    }
    w.constant(
        c,
        Val {
            tag: kind % language::TAGS,
            word,
        },
    );
    w.mark(b'}');
}

// Walks over the form at record i, and gives the record behind it.
#[cycle(form_writing)]
pub fn walk_form(w: &mut Writer<'_>, t: &[u32], c: &[u32], i: u32) -> u32
    ensures kept { Kept w.old w.new }
    ensures wrote { FormWalked t.now c.now i w.old.at (record { next = result; place = w.new.at }) w.old.out.now w.new.out.now }
{
    if RECORDS <= i {
        return i;
    }
    let row = cells::value_at(t, i);
    let arity = tables::at(t, i as usize * 4 + 1);
    walk_opening(w, c, row);
    let next = walk_parts(w, t, c, row.tag, arity, i + 1);
    walk_ending(w, c, row);
    next
}

// Walks over as many parts as `arity` says of a form of this kind, with what stands behind each.
#[cycle(form_writing)]
fn walk_parts(w: &mut Writer<'_>, t: &[u32], c: &[u32], kind: u32, arity: u32, from: u32) -> u32
    ensures kept { Kept w.old w.new }
    ensures wrote { PartsWalked t.now c.now kind arity from w.old.at (record { next = result; place = w.new.at }) w.old.out.now w.new.out.now }
{
    let mut i = from;
    for left in (0..arity).rev() {
        i = walk_part(w, t, c, kind, i);
        walk_behind(w, kind, left);
    }
    i
}

// Walks over the part at record i of a form of this kind, in brackets where it must have them.
#[cycle(form_writing)]
fn walk_part(w: &mut Writer<'_>, t: &[u32], c: &[u32], kind: u32, i: u32) -> u32
    ensures kept { Kept w.old w.new }
    ensures wrote { PartWalked t.now c.now kind i w.old.at (record { next = result; place = w.new.at }) w.old.out.now w.new.out.now }
{
    if tables::at(t, i as usize * 4) != formtable::CHAIN {
        return walk_form(w, t, c, i);
    }
    if !takes_part(kind) {
        return walk_form(w, t, c, i);
    }
    w.mark(b'(');
    let next = walk_form(w, t, c, i);
    w.mark(b')');
    next
}
