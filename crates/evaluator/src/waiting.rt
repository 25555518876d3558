// Values that wait in the ring, and what a question says.
ghost use Rattle.std.specs.Prelude.{◌≡◌, ◌+◌, ◌%◌};
ghost use Rattle.language.specs.Numbers.{cell_limit};
ghost use Rattle.evaluator.specs.Applying.{Collected, Spread};

use language::{CELL_LIMIT, CELL_TABLE_SIZE, Meter, Stopped, Val};
use primitives::Reached;

// The numbers of the ring, four to each of the 4,096 places in which values may wait.
pub const RING_SIZE: usize = CELL_TABLE_SIZE;

// What a question says, and what is left of the budgets.
#[derive(Clone, Copy, Debug, PartialEq, Eq)]
pub struct Asked {
    pub meter: Meter,
    pub yes: bool,
}

// The place of the ring that is q places above top.
pub fn place(top: u32, q: u32) -> u32
    ensures { result ≡ (top + q) % cell_limit }
{
    ((u64::from(top) + u64::from(q)) % u64::from(CELL_LIMIT)) as u32
}

// The sequence of the many values that wait from top on, with a cell for each.
pub fn collect(
    c: &mut [u32],
    w: &[u32; RING_SIZE],
    top: u32,
    many: u32,
    m: Meter,
) -> Result<Reached, Stopped>
    ensures { Collected c.old w.now top many m result c.new }
{
    let p = cells::free_cell(c, m);
    let meter = m.charge_cells(many)?;
    let value = cells::gather(c, w, top, many, p);
    Ok(Reached { value, meter })
}

// Lets the first `many` places of v wait from top on, and gives the place behind them.
pub fn spread(c: &[u32], w: &mut [u32; RING_SIZE], top: u32, many: u32, v: Val) -> Val
    ensures { Spread c.now w.old top many v result w.new }
{
    let mut s = v;
    for q in 0..many {
        let x = cells::head(c, s);
        cells::hold(w, top as usize + q as usize, x);
        s = cells::tail(c, s);
    }
    cells::head(c, s)
}
