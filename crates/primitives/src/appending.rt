// The words that put an object to a sequence, or to each of its places.
ghost use Rattle.language.specs.Forms.{op};
ghost use Rattle.language.specs.Words.{Op};
ghost use Rattle.primitives.specs.Leaves.{LeafTwo};

use super::{Reached, asking, shapes};
use language::{Meter, Stopped, Val};
use lexer::Primitive;

pub fn apndl(c: &mut [u32], a: Val, b: Val, m: Meter) -> Result<Reached, Stopped>
    ensures { LeafTwo c.old a b m (op Op.apndl) result c.new }
{
    let n = shapes::places(b, m)?;
    let space = asking::reserve(c, Primitive::Apndl, n, 0, m)?;
    let value = sequences::put_before(c, space.first, a, b);
    Ok(Reached {
        value,
        meter: space.meter,
    })
}

pub fn apndr(c: &mut [u32], a: Val, b: Val, m: Meter) -> Result<Reached, Stopped>
    ensures { LeafTwo c.old a b m (op Op.apndr) result c.new }
{
    let n = shapes::places(a, m)?;
    let space = asking::reserve(c, Primitive::Apndr, n, 0, m)?;
    let last = sequences::put_before(c, space.first, b, cells::sequence(0, 0));
    let value = sequences::prepended(c, a, n, space.first + 1, last);
    Ok(Reached {
        value,
        meter: space.meter,
    })
}

pub fn distl(c: &mut [u32], a: Val, b: Val, m: Meter) -> Result<Reached, Stopped>
    ensures { LeafTwo c.old a b m (op Op.distl) result c.new }
{
    let n = shapes::places(b, m)?;
    let space = asking::reserve(c, Primitive::Distl, n, 0, m)?;
    let value = sequences::shared(c, a, b, true, n, space.first);
    Ok(Reached {
        value,
        meter: space.meter,
    })
}

pub fn distr(c: &mut [u32], a: Val, b: Val, m: Meter) -> Result<Reached, Stopped>
    ensures { LeafTwo c.old a b m (op Op.distr) result c.new }
{
    let n = shapes::places(a, m)?;
    let space = asking::reserve(c, Primitive::Distr, n, 0, m)?;
    let value = sequences::shared(c, b, a, false, n, space.first);
    Ok(Reached {
        value,
        meter: space.meter,
    })
}
