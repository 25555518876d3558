// The words that answer T or F, and those on T and F.
ghost use Rattle.language.specs.Forms.{op};
ghost use Rattle.language.specs.Words.{Op};
ghost use Rattle.primitives.specs.Leaves.{LeafTwo, Plain, PlainTwo};
ghost use Rattle.primitives.specs.Shapes.{TwoTruths};

use super::{Reached, shapes};
use language::{Meter, Stopped, Val};

pub fn atom(v: Val, m: Meter) -> Result<Reached, Stopped>
    ensures { Plain v m (op Op.atom) result }
{
    Ok(Reached {
        value: shapes::truth(shapes::is_atom(v)),
        meter: m,
    })
}

pub fn null(v: Val, m: Meter) -> Result<Reached, Stopped>
    ensures { Plain v m (op Op.null) result }
{
    Ok(Reached {
        value: shapes::truth(shapes::is_null(v)),
        meter: m,
    })
}

pub fn not(v: Val, m: Meter) -> Result<Reached, Stopped>
    ensures { Plain v m (op Op.not) result }
{
    match shapes::truth_of(v) {
        Some(x) => Ok(Reached {
            value: shapes::truth(!x),
            meter: m,
        }),
        None => Err(Stopped::bottom(m)),
    }
}

// The two truth values, or bottom where either is none.
fn two_truths(a: Val, b: Val, m: Meter) -> Result<(bool, bool), Stopped>
    ensures { TwoTruths a b m result }
{
    let x = shapes::truth_of(a).ok_or(Stopped::bottom(m))?;
    let y = shapes::truth_of(b).ok_or(Stopped::bottom(m))?;
    Ok((x, y))
}

pub fn and(a: Val, b: Val, m: Meter) -> Result<Reached, Stopped>
    ensures { PlainTwo a b m (op Op.and) result }
{
    let (x, y) = two_truths(a, b, m)?;
    Ok(Reached {
        value: shapes::truth(x & y),
        meter: m,
    })
}

pub fn or(a: Val, b: Val, m: Meter) -> Result<Reached, Stopped>
    ensures { PlainTwo a b m (op Op.or) result }
{
    let (x, y) = two_truths(a, b, m)?;
    Ok(Reached {
        value: shapes::truth(x | y),
        meter: m,
    })
}

// A step more for each pair of objects looked at.
pub fn eq(c: &[u32], a: Val, b: Val, m: Meter) -> Result<Reached, Stopped>
    ensures { LeafTwo c.now a b m (op Op.eq) result c.now }
{
    let seen = equality::same(c, a, b, m)?;
    Ok(Reached {
        value: shapes::truth(seen.same),
        meter: seen.meter,
    })
}
