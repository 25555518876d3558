// A pair for each place of a sequence, with one value in all of them.
ghost use Rattle.sequences.specs.Lines.{Coupled};
ghost use Rattle.sequences.specs.Making.{Joined, Shared};

use language::Val;

// The pair of a and b, a in its first place or in its second, in the cells p and p + 1.
fn joined(c: &mut [u32], p: u32, a: Val, b: Val, first: bool) -> Val
    ensures { Joined c.old p a b first result c.new }
{
    if first {
        cells::pair(c, p, a, b)
    } else {
        cells::pair(c, p, b, a)
    }
}

// The pair of a and b as above, and then its place in cell p + 2, which leads to next.
fn coupled(c: &mut [u32], p: u32, a: Val, b: Val, first: bool, next: u32)
    ensures { Coupled c.old p a b first next c.new }
{
    if u32::MAX - 2 < p {
        return;
    }
    let x = joined(c, p, a, b, first);
    cells::put_cell(c, p + 2, x, next);
}

// A pair of a and each of the n places of v, in the cells from p on: two for the pair, and then its place.
pub fn shared(c: &mut [u32], a: Val, v: Val, first: bool, n: u32, p: u32) -> Val
    ensures { Shared c.old a v first n p result c.new }
{
    if n == 0 {
        return v;
    }
    if u32::MAX / 4 < n || u32::MAX - p < 3 * n {
        return v;
    }
    let mut ahead = v;
    let mut free = p;
    for _ in 1..n {
        let b = cells::head(c, ahead);
        ahead = cells::tail(c, ahead);
        coupled(c, free, a, b, first, free + 6);
        free += 3;
    }
    let last = cells::head(c, ahead);
    coupled(c, free, a, last, first, 0);
    cells::sequence(p + 3, n)
}
