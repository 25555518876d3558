// The places of a sequence in another order, or without the last. Each is given the sequence's length, n.
ghost use Rattle.language.specs.Meanings.{turned as reversed, to_left, to_right};
ghost use Rattle.sequences.specs.Making.{Rearranged, all_but_last};

use super::places;
use language::Val;

// All places but the last.
pub fn without_last(c: &mut [u32], v: Val, n: u32, p: u32) -> Val
    ensures { Rearranged all_but_last c.old v n p result c.new }
{
    if n == 0 {
        return v;
    }
    places::prepended(c, v, n - 1, p, cells::sequence(0, 0))
}

// The places from the last to the first.
pub fn turned(c: &mut [u32], v: Val, n: u32, p: u32) -> Val
    ensures { Rearranged reversed c.old v n p result c.new }
{
    let Some(end) = p.checked_add(n) else {
        return v;
    };
    let mut rest = v;
    let mut made = cells::sequence(0, 0);
    for free in p..end {
        let x = cells::head(c, rest);
        rest = cells::tail(c, rest);
        made = places::put_before(c, free, x, made);
    }
    made
}

// The first place behind all others.
pub fn left_turned(c: &mut [u32], v: Val, n: u32, p: u32) -> Val
    ensures { Rearranged to_left c.old v n p result c.new }
{
    if n == 0 {
        return v;
    }
    if p == u32::MAX {
        return v;
    }
    let first = cells::head(c, v);
    let others = cells::tail(c, v);
    let last = places::put_before(c, p, first, cells::sequence(0, 0));
    places::prepended(c, others, n - 1, p + 1, last)
}

// The last place before all others.
pub fn right_turned(c: &mut [u32], v: Val, n: u32, p: u32) -> Val
    ensures { Rearranged to_right c.old v n p result c.new }
{
    if n == 0 {
        return v;
    }
    if p.checked_add(n).is_none() {
        return v;
    }
    let last = cells::nth(c, v, n - 1);
    let others = places::prepended(c, v, n - 1, p, cells::sequence(0, 0));
    places::put_before(c, p + (n - 1), last, others)
}
