// The words on the places of one sequence.
ghost use Rattle.language.specs.Forms.{op};
ghost use Rattle.language.specs.Words.{Op};
ghost use Rattle.primitives.specs.Ends.{Leaf};
ghost use Rattle.primitives.specs.Leaves.{Plain, Arranged, Ordered};

use super::{Reached, asking, shapes};
use language::{Meter, Stopped, Val};
use lexer::Primitive;

pub fn tl(c: &[u32], v: Val, m: Meter) -> Result<Reached, Stopped>
    ensures { Leaf c.now v m (op Op.tl) result c.now }
{
    let n = shapes::places(v, m)?;
    if n == 0 {
        return Err(Stopped::bottom(m));
    }
    Ok(Reached {
        value: cells::tail(c, v),
        meter: m,
    })
}

pub fn length(v: Val, m: Meter) -> Result<Reached, Stopped>
    ensures { Plain v m (op Op.length) result }
{
    let n = shapes::places(v, m)?;
    Ok(Reached {
        value: arithmetic::positive(u64::from(n)),
        meter: m,
    })
}

// The n places of v as the word arranges them, in cells from p on.
fn arranged(word: Primitive, c: &mut [u32], v: Val, n: u32, p: u32) -> Val
    ensures { Arranged c.old v word n p result c.new }
{
    match word {
        Primitive::Tlr => sequences::without_last(c, v, n, p),
        Primitive::Reverse => sequences::turned(c, v, n, p),
        Primitive::Rotl => sequences::left_turned(c, v, n, p),
        _ => sequences::right_turned(c, v, n, p),
    }
}

// The words reverse, rotl and rotr, and tlr where there is a last place.
pub fn arrange(word: Primitive, c: &mut [u32], v: Val, m: Meter) -> Result<Reached, Stopped>
    ensures { Ordered c.old v m word result c.new }
{
    let n = shapes::places(v, m)?;
    let space = asking::reserve(c, word, n, 0, m)?;
    let value = arranged(word, c, v, n, space.first);
    Ok(Reached {
        value,
        meter: space.meter,
    })
}

pub fn tlr(c: &mut [u32], v: Val, m: Meter) -> Result<Reached, Stopped>
    ensures { Leaf c.old v m (op Op.tlr) result c.new }
{
    let n = cells::size(v);
    if n == 0 {
        return Err(Stopped::bottom(m));
    }
    arrange(Primitive::Tlr, c, v, m)
}
