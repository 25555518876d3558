// The selectors k and kr.
ghost use Rattle.language.specs.Forms.{Word};
ghost use Rattle.primitives.specs.Ends.{Leaf};
ghost use Rattle.primitives.specs.Shapes.{ReadPlacesTo};

use super::{Reached, shapes};
use language::{Meter, Stopped, Val};

// How many places a sequence has that has a place k, counted from 1; else bottom.
fn places_to(k: u32, v: Val, m: Meter) -> Result<u32, Stopped>
    ensures { ReadPlacesTo k v m result }
{
    let n = shapes::places(v, m)?;
    if k == 0 || n < k {
        return Err(Stopped::bottom(m));
    }
    Ok(n)
}

// The place k, counted from 1.
pub fn select(c: &[u32], k: u32, v: Val, m: Meter) -> Result<Reached, Stopped>
    ensures { Leaf c.now v m (Word.select k) result c.now }
{
    places_to(k, v, m)?;
    Ok(Reached {
        value: cells::nth(c, v, k - 1),
        meter: m,
    })
}

// The place k, counted from 1 at the end.
pub fn select_right(c: &[u32], k: u32, v: Val, m: Meter) -> Result<Reached, Stopped>
    ensures { Leaf c.now v m (Word.select_right k) result c.now }
{
    let n = places_to(k, v, m)?;
    Ok(Reached {
        value: cells::nth(c, v, n - k),
        meter: m,
    })
}
