// The words on two integers. A result out of range is bottom.
ghost use Rattle.language.specs.Forms.{op};
ghost use Rattle.language.specs.Words.{Op};
ghost use Rattle.primitives.specs.Leaves.{PlainTwo};
ghost use Rattle.primitives.specs.Shapes.{BothIntegers, InRange};

use super::{Reached, shapes};
use language::{Meter, Stopped, Val};

// The integer that z holds, or bottom where it is out of range.
fn ranged(z: Val, m: Meter) -> Result<Reached, Stopped>
    ensures { InRange z m result }
{
    if language::LARGEST < z.word {
        return Err(Stopped::bottom(m));
    }
    Ok(Reached { value: z, meter: m })
}

// Nothing where both are integers, else bottom.
fn both_integers(a: Val, b: Val, m: Meter) -> Result<(), Stopped>
    ensures { BothIntegers a b m result }
{
    if shapes::is_integer(a) && shapes::is_integer(b) {
        return Ok(());
    }
    Err(Stopped::bottom(m))
}

pub fn lt(a: Val, b: Val, m: Meter) -> Result<Reached, Stopped>
    ensures { PlainTwo a b m (op Op.lt) result }
{
    both_integers(a, b, m)?;
    Ok(Reached {
        value: shapes::truth(arithmetic::is_less(a, b)),
        meter: m,
    })
}

pub fn add(a: Val, b: Val, m: Meter) -> Result<Reached, Stopped>
    ensures { PlainTwo a b m (op Op.add) result }
{
    both_integers(a, b, m)?;
    ranged(arithmetic::add(a, b), m)
}

pub fn sub(a: Val, b: Val, m: Meter) -> Result<Reached, Stopped>
    ensures { PlainTwo a b m (op Op.sub) result }
{
    both_integers(a, b, m)?;
    ranged(arithmetic::subtract(a, b), m)
}

pub fn mul(a: Val, b: Val, m: Meter) -> Result<Reached, Stopped>
    ensures { PlainTwo a b m (op Op.mul) result }
{
    both_integers(a, b, m)?;
    ranged(arithmetic::multiply(a, b), m)
}

pub fn div(a: Val, b: Val, m: Meter) -> Result<Reached, Stopped>
    ensures { PlainTwo a b m (op Op.div) result }
{
    both_integers(a, b, m)?;
    if b.word + u64::from(b.tag) == 0 {
        return Err(Stopped::bottom(m));
    }
    ranged(arithmetic::divide(a, b), m)
}
