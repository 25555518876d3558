// Applications of forms that have no parts.
ghost use Rattle.evaluator.specs.Applying.{Alone};

use crate::records::{constant, low};
use language::{FORM_TABLE_SIZE, Meter, Stopped, Val};
use primitives::{Reached, apply_word, select, select_right};

// The form at i on v, where its kind is a word's, a selector's or a constant's; any other kind is bottom.
pub fn leaf(
    f: &[u32; FORM_TABLE_SIZE],
    c: &mut [u32],
    kind: u32,
    i: u32,
    v: Val,
    m: Meter,
) -> Result<Reached, Stopped>
    ensures { Alone f.now c.old i v m kind result c.new }
{
    match kind {
        formtable::WORD => apply_word(low(f, i), c, v, m),
        formtable::SELECT => select(c, low(f, i), v, m),
        formtable::SELECT_RIGHT => select_right(c, low(f, i), v, m),
        formtable::CONSTANT => Ok(Reached {
            value: constant(f, i),
            meter: m,
        }),
        _ => Err(Stopped::bottom(m)),
    }
}
