// Whether two values stand for the same object, with a step for each pair of objects looked at.
#![tactic(auto)]

ghost use Rattle.equality.specs.Looking.{Looks, LooksAlong};

use language::{Meter, SEQUENCE, Stopped, Val};

// Whether no difference came, and what is left of the budgets.
#[derive(Clone, Copy, Debug, PartialEq, Eq)]
pub struct Compared {
    pub meter: Meter,
    pub same: bool,
}

// Looks at the objects of a and b, if a step is left for each pair. Sequences are looked at place by place, wherever they lie:
// cells that both share are looked at, and counted, as any others.
#[cycle(comparison)]
pub fn same(c: &[u32], a: Val, b: Val, m: Meter) -> Result<Compared, Stopped>
    ensures { Looks c.now a b m result }
{
    let meter = m.charge_step()?;
    if a.tag != b.tag {
        return Ok(Compared { same: false, meter });
    }
    if a.tag == SEQUENCE {
        return places(c, a, b, meter);
    }
    Ok(Compared {
        same: a.word == b.word,
        meter,
    })
}

// Looks at the places of two sequences, until a difference or until either ends.
#[cycle(comparison)]
fn places(c: &[u32], a: Val, b: Val, m: Meter) -> Result<Compared, Stopped>
    ensures { LooksAlong c.now a b m result }
{
    let mut p = a;
    let mut q = b;
    let mut meter = m;
    while cells::size(p) != 0 {
        if cells::size(q) == 0 {
            return Ok(Compared { same: false, meter });
        }
        let x = cells::head(c, p);
        let y = cells::head(c, q);
        let seen = same(c, x, y, meter)?;
        if !seen.same {
            return Ok(seen);
        }
        meter = seen.meter;
        p = cells::tail(c, p);
        q = cells::tail(c, q);
    }
    Ok(Compared {
        same: cells::size(q) == 0,
        meter,
    })
}
