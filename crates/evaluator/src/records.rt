// The numbers of a linked form's record.
ghost use Rattle.std.specs.Prelude.{◌≡◌, ◌+◌, ◌%◌};
ghost use Rattle.tables.specs.Tables.{field};
ghost use Rattle.evaluator.specs.Applying.{Branch};
ghost use Rattle.linker.specs.Linked.{linked_kind_at, link_at, constant_at};

use language::{FORM_TABLE_SIZE, Val};

// The kind of the form at i: 12 for all constants, 16 for all of `{f,x}`.
pub fn kind(f: &[u32; FORM_TABLE_SIZE], i: u32) -> u32
    ensures { result ≡ linked_kind_at f.now i }
{
    match tables::at(f, i as usize * 4) % linker::KINDS {
        formtable::CONSTANT..formtable::BU => formtable::CONSTANT,
        formtable::BU..formtable::KINDS_END => formtable::BU,
        k => k,
    }
}

// The record of the part to evaluate after the one at i.
pub fn next(f: &[u32; FORM_TABLE_SIZE], i: u32) -> u32
    ensures { result ≡ link_at f.now i }
{
    tables::at(f, i as usize * 4) / linker::KINDS
}

// The record of the form that a condition chooses, whose question is at h and says b: behind the question the first for T, the
// second for F.
pub fn branch(f: &[u32; FORM_TABLE_SIZE], h: u32, b: u32) -> u32
    ensures { Branch f.now h b result }
{
    let j = next(f, h);
    if b == 0 { next(f, j) } else { j }
}

// The record of the first part of the form at i.
pub fn inner(i: u32) -> u32
    ensures { result ≡ (i + 1) % 4294967296 }
{
    i.wrapping_add(1)
}

pub fn arity(f: &[u32; FORM_TABLE_SIZE], i: u32) -> u32
    ensures { result ≡ field f.now i 1 }
{
    tables::at(f, i as usize * 4 + 1)
}

pub fn low(f: &[u32; FORM_TABLE_SIZE], i: u32) -> u32
    ensures { result ≡ field f.now i 2 }
{
    tables::at(f, i as usize * 4 + 2)
}

// The constant of the form at i.
pub fn constant(f: &[u32; FORM_TABLE_SIZE], i: u32) -> Val
    ensures { result ≡ constant_at f.now i }
{
    let lo = tables::at(f, i as usize * 4 + 2);
    let hi = tables::at(f, i as usize * 4 + 3);
    Val {
        tag: tables::at(f, i as usize * 4) % language::TAGS,
        word: tables::word(lo, hi),
    }
}
