// The columns of rows of equal length.
ghost use Rattle.std.specs.Prelude.{◌≡◌, ◌+◌};
ghost use Rattle.sequences.specs.Lines.{sequence_from, RowsSpread, ColumnsListed};
ghost use Rattle.sequences.specs.Making.{Rows, Columns};

use super::{lines, places};
use language::Val;

// Whether the n places of v are sequences of w places.
pub fn are_rows(c: &[u32], v: Val, n: u32, w: u32) -> bool
    ensures { Rows c.now v n w result }
{
    let mut p = cells::first_cell(v);
    for _ in 0..n {
        let row = cells::value_at(c, p);
        if !cells::is_sequence(row) || cells::size(row) != w {
            return false;
        }
        p = cells::next_cell(c, p);
    }
    true
}

// The n rows of v, one after the other in the cells from p on, each place leading to the one below it. Answers the next
// free cell. No table has so many cells that a number could run over.
fn spread(c: &mut [u32], v: Val, n: u32, w: u32, p: u32) -> u32
    ensures { RowsSpread c.old v n w p result c.new }
{
    if n == 0 {
        return p;
    }
    let mut ahead = v;
    let mut free = p;
    for _ in 1..n {
        let row = cells::head(c, ahead);
        ahead = cells::tail(c, ahead);
        lines::copied(c, row, w, free, w);
        free = free.wrapping_add(w);
    }
    let last = cells::head(c, ahead);
    lines::copied(c, last, w, free, 0);
    free.wrapping_add(w)
}

// The sequence of n places that begins in cell first + j.
fn begun_at(first: u32, j: u32, n: u32) -> Val
    ensures { result ≡ sequence_from (first + j) n }
{
    if n == 0 {
        return cells::sequence(0, 0);
    }
    cells::sequence(first.wrapping_add(j).wrapping_add(1), n)
}

// The sequence of the w sequences of n places that begin in the cells from first on, in the cells from p on.
fn listed(c: &mut [u32], first: u32, n: u32, w: u32, p: u32) -> Val
    ensures { ColumnsListed c.old first n w p result c.new }
{
    let mut s = cells::sequence(0, 0);
    if p.checked_add(w).is_none() {
        return s;
    }
    let mut free = p;
    for left in (0..w).rev() {
        let x = begun_at(first, left, n);
        s = places::put_before(c, free, x, s);
        free += 1;
    }
    s
}

// The w columns of the n rows of v, in the cells from p on: w for each row, and then one for each column. Where there is no
// column no row is walked.
pub fn columns(c: &mut [u32], v: Val, n: u32, w: u32, p: u32) -> Val
    ensures { Columns c.old v n w p result c.new }
{
    if w == 0 {
        return cells::sequence(0, 0);
    }
    let free = spread(c, v, n, w, p);
    listed(c, p, n, w, free)
}
