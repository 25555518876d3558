// Objects as text. A walk goes over an object's text from the left: it stops at the first byte without room and at the
// first mark too many, and it writes only where the output has room. So the same walk measures, and then writes.
ghost use Rattle.std.specs.Prelude.{◌≤◌};
ghost use Rattle.objects.specs.Writings.{PutText, Kept, placed, TextWalked, MarkWalked, DecimalWalked, SymbolWalked, AtomWalked, ObjectWalked, PlaceWalked, PlacesWalked, ObjectWritten};

use super::cursor::Writer;
use super::{NotWritten, integers};
use language::Val;
use packing::Case;

// Writes `text` at the place `at`, where the output has room for all of it.
pub fn put_text(out: &mut [u8], at: usize, text: &[u8])
    ensures { PutText out.old at text.now out.new }
{
    let n = text.len();
    if out.len() < n {
        return;
    }
    if out.len() - n < at {
        return;
    }
    match text {
        [] => {}
        [b] => out[at] = *b,
        _ => out[at..at + n].copy_from_slice(text),
    }
}

impl<'a> Writer<'a> {
    // Walks over a text that holds no mark.
    fn text(&mut self, text: &[u8]) -> Result<(), NotWritten>
        ensures kept { Kept self.old self.new }
        ensures walked { TextWalked text.now self.old.at self.old.cap (placed result self.new.at) self.old.out.now self.new.out.now }
    {
        if self.cap - self.at < text.len() {
            return Err(NotWritten::NoRoom);
        }
        put_text(self.out, self.at, text);
        self.at += text.len();
        Ok(())
    }

    // Walks over one mark.
    fn mark(&mut self, b: u8) -> Result<(), NotWritten>
        ensures kept { Kept self.old self.new }
        ensures walked { MarkWalked b self.old.at self.old.cap (placed result self.new.at) self.old.out.now self.new.out.now }
    {
        if self.at == self.cap {
            return Err(NotWritten::NoRoom);
        }
        put_text(self.out, self.at, &[b]);
        self.at += 1;
        Ok(())
    }

    // Walks over the digits of n.
    #[inline(always)]
    fn decimal(&mut self, n: u64) -> Result<(), NotWritten>
        ensures kept { Kept self.old self.new }
        ensures walked { DecimalWalked n self.old.at self.old.cap (placed result self.new.at) self.old.out.now self.new.out.now }
    {
        let mut a = [0u8; 20];
        let first = integers::digits(n, &mut a);
        self.text(&a[first..])
    }

    // Walks over a symbol.
    fn symbol(&mut self, word: u64) -> Result<(), NotWritten>
        ensures kept { Kept self.old self.new }
        ensures walked { SymbolWalked word self.old.at self.old.cap (placed result self.new.at) self.old.out.now self.new.out.now }
    {
        let mut a = [0u8; language::WORD_LIMIT];
        let n = packing::unpack(word, Case::Upper, &mut a);
        self.text(&a[..n])
    }

    // Walks over a value that is no sequence.
    fn atom(&mut self, v: Val) -> Result<(), NotWritten>
        ensures kept { Kept self.old self.new }
        ensures walked { AtomWalked v self.old.at self.old.cap (placed result self.new.at) self.old.out.now self.new.out.now }
    {
        let tag = v.tag;
        let word = v.word;
        if tag == language::SYMBOL {
            return self.symbol(word);
        }
        if tag == language::POSITIVE {
            return self.decimal(word);
        }
        self.mark(b'-')?;
        self.decimal(word.wrapping_add(1))
    }

    // Walks over what v stands for, where `opened` marks are open.
    #[cycle(object_writing)]
    fn object(&mut self, c: &[u32], v: Val, opened: u32) -> Result<(), NotWritten>
        ensures kept { Kept self.old self.new }
        ensures walked { ObjectWalked c.now v self.old.at self.old.cap opened (placed result self.new.at) self.old.out.now self.new.out.now }
    {
        let tag = v.tag;
        if tag != language::SEQUENCE {
            return self.atom(v);
        }
        if language::MARK_LIMIT <= opened {
            return Err(NotWritten::TooDeep);
        }
        self.mark(b'<')?;
        if cells::size(v) == 0 {
            return self.mark(b'>');
        }
        self.places(c, v, opened + 1)
    }

    // Walks over the places of a sequence that has some, with the comma or the `>` behind each.
    #[cycle(object_writing)]
    fn places(&mut self, c: &[u32], v: Val, opened: u32) -> Result<(), NotWritten>
        ensures kept { Kept self.old self.new }
        ensures walked { PlacesWalked c.now v self.old.at self.old.cap opened (placed result self.new.at) self.old.out.now self.new.out.now }
    {
        let mut s = v;
        for _ in 1..cells::size(v) {
            self.place(c, s, opened, b',')?;
            s = cells::tail(c, s);
        }
        self.place(c, s, opened, b'>')
    }

    // Walks over the object in a sequence's first place, and the mark b behind it.
    #[cycle(object_writing)]
    fn place(&mut self, c: &[u32], v: Val, opened: u32, b: u8) -> Result<(), NotWritten>
        ensures kept { Kept self.old self.new }
        ensures walked { PlaceWalked c.now v self.old.at self.old.cap opened b (placed result self.new.at) self.old.out.now self.new.out.now }
    {
        self.object(c, cells::head(c, v), opened)?;
        self.mark(b)
    }
}

// Walks over what v stands for, from the place `at` on, where `opened` marks are open and the text may go up to `cap`; gives
// the place behind it.
pub fn walk_object(
    c: &[u32],
    v: Val,
    out: &mut [u8],
    at: usize,
    cap: usize,
    opened: u32,
) -> Result<usize, NotWritten>
    requires { at ≤ cap }
    ensures { ObjectWalked c.now v at cap opened result out.old out.new }
{
    let mut w = Writer { out, at, cap };
    w.object(c, v, opened)?;
    Ok(w.at)
}

// Writes what v stands for to the front of the output, and gives its length; or says why not, and changes nothing.
pub fn write_object(c: &[u32], v: Val, out: &mut [u8]) -> Result<usize, NotWritten>
    ensures { ObjectWritten c.now v result out.old out.new }
{
    let cap = out.len().min(language::WRITTEN_LIMIT);
    let none = 0;
    walk_object(c, v, &mut out[..none], 0, cap, 0)?;
    walk_object(c, v, out, 0, cap, 0)
}
