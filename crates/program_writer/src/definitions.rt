// Whole programs: measured, and written where there is room for all of it.
ghost use Rattle.std.specs.Prelude.{◌≡◌};
ghost use Rattle.program_writer.specs.Walks.{Kept};
ghost use Rattle.program_writer.specs.Programs.{name_at, DefinitionWalked, ProgramWalked, ProgramDepth, TextMeasured, ProgramMeasured, ProgramWritten};

use super::{Measured, Writer, forms, marks, texts};

// The packed name of definition k.
fn name_at(d: &[u32], k: u32) -> u64
    ensures { result ≡ name_at d.now k }
{
    let i = k as usize * 4;
    tables::word(tables::at(d, i), tables::at(d, i + 1))
}

// Walks over definition k, whose body is at record i, and gives the record behind it.
fn walk_definition(w: &mut Writer<'_>, t: &[u32], c: &[u32], d: &[u32], k: u32, i: u32) -> u32
    ensures kept { Kept w.old w.new }
    ensures wrote { DefinitionWalked t.now c.now d.now k i w.old.at (record { next = result; place = w.new.at }) w.old.out.now w.new.out.now }
{
    w.name(name_at(d, k));
    w.mark(b'=');
    let next = forms::walk_form(w, t, c, i);
    w.mark(b';');
    next
}

// Walks over so many definitions, from the output's front on.
fn walk_definitions(w: &mut Writer<'_>, t: &[u32], c: &[u32], d: &[u32], defs: u32)
    requires { w.old.at ≡ 0 }
    ensures kept { Kept w.old w.new }
    ensures wrote { ProgramWalked t.now c.now d.now defs w.new.at w.old.out.now w.new.out.now }
{
    let mut i = 0;
    for k in 0..defs {
        i = walk_definition(w, t, c, d, k, i);
    }
}

// Walks over the program of so many definitions, and gives the place behind it.
fn walk_program(t: &[u32], c: &[u32], d: &[u32], defs: u32, out: &mut [u8]) -> usize
    ensures { ProgramWalked t.now c.now d.now defs result out.old out.new }
{
    let mut w = Writer { out, at: 0 };
    walk_definitions(&mut w, t, c, d, defs);
    w.at
}

// The most marks open at once in the program of so many definitions, 33 if more than 32.
fn program_marks(t: &[u32], c: &[u32], defs: u32) -> u32
    ensures { ProgramDepth t.now c.now defs result }
{
    let mut i = 0;
    let mut most: u32 = 0;
    for _ in 0..defs {
        let f = marks::form_marks(t, c, i);
        i = f.next;
        most = most.max(f.marks);
    }
    most
}

// The length of the program's text, 16,385 if longer than 16,384.
fn text_length(t: &[u32], c: &[u32], d: &[u32], defs: u32) -> usize
    ensures { TextMeasured t.now c.now d.now defs result }
{
    let mut nothing = [0u8; 1];
    walk_program(t, c, d, defs, &mut nothing).min(texts::TOO_LONG)
}

// How long the program's text is, and how many marks are open at once in it.
pub fn measure_program(t: &[u32], c: &[u32], d: &[u32], defs: u32) -> Measured
    ensures { ProgramMeasured t.now c.now d.now defs result }
{
    Measured {
        length: text_length(t, c, d, defs),
        marks: program_marks(t, c, defs),
    }
}

// Writes the program to the front of the output, and gives its length; where there is no room (25) it changes nothing.
pub fn write_program(t: &[u32], c: &[u32], d: &[u32], defs: u32, out: &mut [u8]) -> Option<usize>
    ensures { ProgramWritten t.now c.now d.now defs result out.old out.new }
{
    let length = text_length(t, c, d, defs);
    if language::WRITTEN_LIMIT < length {
        return None;
    }
    if out.len() < length {
        return None;
    }
    walk_program(t, c, d, defs, out);
    Some(length)
}
