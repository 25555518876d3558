// A place, or the first places of a sequence, put before a sequence.
ghost use Rattle.sequences.specs.Making.{PutBefore, Prepended};

use super::lines;
use language::Val;

// The sequence of x and then the places of s, in cell p. No table has so many cells that the numbers could run over.
pub fn put_before(c: &mut [u32], p: u32, x: Val, s: Val) -> Val
    ensures { PutBefore c.old p x s result c.new }
{
    let Some(link) = p.checked_add(1) else {
        return s;
    };
    let Some(n) = cells::size(s).checked_add(1) else {
        return s;
    };
    cells::put_cell(c, p, x, tables::low(s.word));
    cells::sequence(link, n)
}

// The first n places of v and then those of rest, in the cells from p on.
pub fn prepended(c: &mut [u32], v: Val, n: u32, p: u32, rest: Val) -> Val
    ensures { Prepended c.old v n p rest result c.new }
{
    if n == 0 {
        return rest;
    }
    if p.checked_add(n).is_none() {
        return rest;
    }
    let Some(all) = cells::size(rest).checked_add(n) else {
        return rest;
    };
    let behind = lines::copied(c, v, n - 1, p, 1);
    let last = cells::head(c, behind);
    cells::put_cell(c, p + (n - 1), last, tables::low(rest.word));
    cells::sequence(p + 1, all)
}
