// Values, and the cells that their sequences stand in: four numbers to a cell, [tag, next, lo, hi].
#![tactic(auto)]

ghost use Rattle.std.specs.Prelude.{◌≡◌, ◌-◌, ◌%◌, eqb};
ghost use Rattle.cells.specs.Cells.{val_at, next_at, sequence_val, cell_put, free};
ghost use Rattle.cells.specs.Parts.{first_of, Sized, Headed, Tailed, Nth, Paired, held_at, hold_at, Gathered};

use language::{Meter, SEQUENCE, Val};

// How many values may wait.
const PLACES: usize = 4096;

// The value in cell p.
pub fn value_at(c: &[u32], p: u32) -> Val
    ensures { result ≡ val_at c.now p }
{
    let i = p as usize * 4;
    Val {
        tag: tables::at(c, i),
        word: tables::word(tables::at(c, i + 2), tables::at(c, i + 3)),
    }
}

// Makes cell p: the value v, and then the place that next leads to. Past the end nothing changes.
pub fn put_cell(c: &mut [u32], p: u32, v: Val, next: u32)
    ensures { c.new ≡ cell_put c.old p v next }
{
    tables::put_record(
        c,
        p as usize,
        v.tag,
        next,
        tables::low(v.word),
        tables::high(v.word),
    );
}

// Whether the value is a sequence.
pub fn is_sequence(v: Val) -> bool
    ensures { result ≡ eqb v.tag 3 }
{
    v.tag == SEQUENCE
}

// How many places a sequence has.
pub fn size(v: Val) -> u32
    ensures { Sized v result }
{
    tables::high(v.word)
}

// The number of a sequence's first cell; 0 where there is none.
pub fn first_cell(v: Val) -> u32
    ensures { result ≡ first_of v }
{
    tables::low(v.word).saturating_sub(1)
}

// The value in a sequence's first place.
pub fn head(c: &[u32], v: Val) -> Val
    ensures { Headed c.now v result }
{
    value_at(c, first_cell(v))
}

// The sequence of n places whose first cell is numbered one less than link.
pub fn sequence(link: u32, n: u32) -> Val
    ensures { result ≡ sequence_val link n }
{
    Val {
        tag: SEQUENCE,
        word: tables::word(link, n),
    }
}

// All of a sequence but its first place.
pub fn tail(c: &[u32], v: Val) -> Val
    ensures { Tailed c.now v result }
{
    let link = tables::at(c, first_cell(v) as usize * 4 + 1);
    sequence(link, size(v).saturating_sub(1))
}

// The number of the cell that cell p leads to; 0 where it leads to none.
pub fn next_cell(c: &[u32], p: u32) -> u32
    ensures { result ≡ next_at c.now p - 1 }
{
    tables::at(c, p as usize * 4 + 1).saturating_sub(1)
}

// The value in a sequence's place k, counted from 0.
pub fn nth(c: &[u32], v: Val, k: u32) -> Val
    ensures { Nth c.now v k result }
{
    let mut p = first_cell(v);
    for _ in 0..k {
        p = next_cell(c, p);
    }
    value_at(c, p)
}

// The number of the next free cell: the cells that the meter holds are at the end.
pub fn free_cell(c: &[u32], m: Meter) -> u32
    ensures { result ≡ free c.now m % 4294967296 }
{
    ((c.len() / 4).saturating_sub(m.cells as usize) & 0xffff_ffff) as u32
}

// The pair of a and b in the cells p and p + 1.
pub fn pair(c: &mut [u32], p: u32, a: Val, b: Val) -> Val
    ensures { Paired c.old p a b result c.new }
{
    let Some(end) = p.checked_add(2) else {
        return sequence(0, 0);
    };
    put_cell(c, p, b, 0);
    put_cell(c, p + 1, a, p + 1);
    sequence(end, 2)
}

// The waiting value in place i of the ring.
pub fn held(w: &[u32], i: usize) -> Val
    ensures { result ≡ held_at w.now i }
{
    value_at(w, (i % PLACES) as u32)
}

// Lets v wait in place i of the ring.
pub fn hold(w: &mut [u32], i: usize, v: Val)
    ensures { w.new ≡ hold_at w.old i v }
{
    put_cell(w, (i % PLACES) as u32, v, 0);
}

// The sequence of the n values that wait from top on, in cells from p on.
pub fn gather(c: &mut [u32], w: &[u32], top: u32, n: u32, p: u32) -> Val
    ensures { Gathered c.old w.now top n p result c.new }
{
    if p.checked_add(n).is_none() {
        return sequence(0, 0);
    }
    let mut link: u32 = 0;
    let mut free = p;
    for left in (0..n).rev() {
        let v = held(w, top as usize + left as usize);
        put_cell(c, free, v, link);
        free += 1;
        link = free;
    }
    sequence(link, n)
}
