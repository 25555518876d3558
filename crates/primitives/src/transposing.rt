// The word trans.
ghost use Rattle.language.specs.Forms.{op};
ghost use Rattle.language.specs.Words.{Op};
ghost use Rattle.primitives.specs.Ends.{Leaf};

use super::{Reached, asking, shapes};
use language::{Meter, Stopped, Val};
use lexer::Primitive;

// The columns of rows of equal length; bottom where there is no row, or the rows are unequal.
pub fn trans(c: &mut [u32], v: Val, m: Meter) -> Result<Reached, Stopped>
    ensures { Leaf c.old v m (op Op.trans) result c.new }
{
    let n = shapes::places(v, m)?;
    if n == 0 {
        return Err(Stopped::bottom(m));
    }
    let w = cells::size(cells::head(c, v));
    if !sequences::are_rows(c, v, n, w) {
        return Err(Stopped::bottom(m));
    }
    let space = asking::reserve(c, Primitive::Trans, n, w, m)?;
    let value = sequences::columns(c, v, n, w, space.first);
    Ok(Reached {
        value,
        meter: space.meter,
    })
}
