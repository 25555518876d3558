// Applications of linked forms: f holds the forms, c the cells, w the ring of values that wait, of which those from top on
// are free. Every round of calls goes through `step`, which takes a step; so the calls end.
ghost use Rattle.evaluator.specs.Applying.{Applied, Chained, Slotted, Constructed, Mapped, Folded, Between, Inserted, Questioned, Repeated, Bound, Chosen, NameApplied};

use crate::alone::leaf;
use crate::records::{arity, branch, constant, inner, kind, low, next};
use crate::waiting::{Asked, RING_SIZE, collect, place, spread};
use language::{FORM_TABLE_SIZE, Meter, Stop, Stopped, Val};
use primitives::{Reached, truth_of};

// One application of the form at i to v. A value lent as two numbers and a meter lent as three take less of the stack.
#[cycle(application)]
pub fn apply(
    f: &[u32; FORM_TABLE_SIZE],
    c: &mut [u32],
    w: &mut [u32; RING_SIZE],
    top: u32,
    i: u32,
    v: Val,
    m: Meter,
) -> Result<Reached, Stopped>
    ensures { Applied f.now c.old w.old top i v m result c.new w.new }
{
    step(f, c, w, top, i, v.tag, v.word, m.steps, m.names, m.cells)
}

// One application of the form at i, by its kind.
#[cycle(application)]
pub fn step(
    f: &[u32; FORM_TABLE_SIZE],
    c: &mut [u32],
    w: &mut [u32; RING_SIZE],
    top: u32,
    i: u32,
    tag: u32,
    word: u64,
    steps: u32,
    names: u32,
    cells: u32,
) -> Result<Reached, Stopped>
    ensures { Applied f.now c.old w.old top i (record { tag = tag; word = word }) (record { steps = steps; names = names; cells = cells }) result c.new w.new }
{
    let v = Val { tag, word };
    let m = Meter {
        steps,
        names,
        cells,
    };
    let k = m.charge_step()?;
    let h = inner(i);
    let shape = kind(f, i);
    match shape {
        formtable::WORD => leaf(f, c, formtable::WORD, i, v, k),
        formtable::NAME => name(f, c, w, top, arity(f, i), v, k),
        formtable::CHAIN => chain(f, c, w, top, low(f, i), v, k),
        formtable::CONSTRUCT => construct(f, c, w, top, h, arity(f, i), v, k),
        formtable::INSERT => insert(f, c, w, top, h, v, k),
        formtable::APPLY_ALL => each(f, c, w, top, h, v, k),
        formtable::CONDITION => condition(f, c, w, top, h, v, k),
        formtable::WHILE => repeat(f, c, w, top, h, v, k),
        formtable::BU => bu(f, c, w, top, h, constant(f, i), v, k),
        _ => leaf(f, c, shape, i, v, k),
    }
}

// The parts of a chain whose last part is the record `last`, the last first.
#[cycle(application)]
pub fn chain(
    f: &[u32; FORM_TABLE_SIZE],
    c: &mut [u32],
    w: &mut [u32; RING_SIZE],
    top: u32,
    last: u32,
    v: Val,
    m: Meter,
) -> Result<Reached, Stopped>
    ensures { Chained f.now c.old w.old top last v m result c.new w.new }
{
    let mut j = last;
    let mut end = Reached { value: v, meter: m };
    while j != 0 {
        end = apply(f, c, w, top, j, end.value, end.meter)?;
        j = next(f, j);
    }
    Ok(end)
}

// One application of the form at i, whose value then waits at top.
#[cycle(application)]
pub fn slot(
    f: &[u32; FORM_TABLE_SIZE],
    c: &mut [u32],
    w: &mut [u32; RING_SIZE],
    top: u32,
    i: u32,
    v: Val,
    m: Meter,
) -> Result<Reached, Stopped>
    ensures { Slotted f.now c.old w.old top i v m result c.new w.new }
{
    let end = apply(f, c, w, top, i, v, m)?;
    cells::hold(w, top as usize, end.value);
    Ok(end)
}

// The many parts of a construction from the one at h on, the first first; then a cell for each.
#[cycle(application)]
pub fn construct(
    f: &[u32; FORM_TABLE_SIZE],
    c: &mut [u32],
    w: &mut [u32; RING_SIZE],
    top: u32,
    h: u32,
    many: u32,
    v: Val,
    m: Meter,
) -> Result<Reached, Stopped>
    ensures { Constructed f.now c.old w.old top h many v m result c.new w.new }
{
    let mut j = h;
    let mut n = m;
    for q in 0..many {
        let t = place(top, q);
        n = slot(f, c, w, t, j, v, n)?.meter;
        j = next(f, j);
    }
    collect(c, w, top, many, n)
}

// The form at g on each place of v, from left to right; then a cell for each.
#[cycle(application)]
pub fn each(
    f: &[u32; FORM_TABLE_SIZE],
    c: &mut [u32],
    w: &mut [u32; RING_SIZE],
    top: u32,
    g: u32,
    v: Val,
    m: Meter,
) -> Result<Reached, Stopped>
    ensures { Mapped f.now c.old w.old top g v m result c.new w.new }
{
    if v.tag != language::SEQUENCE {
        return Err(Stopped {
            why: Stop::Bottom,
            meter: m,
        });
    }
    let many = cells::size(v);
    let mut s = v;
    let mut n = m;
    for q in 0..many {
        let t = place(top, q);
        let x = cells::head(c, s);
        n = slot(f, c, w, t, g, x, n)?.meter;
        s = cells::tail(c, s);
    }
    collect(c, w, top, many, n)
}

// The form at g on the pair of the value that waits at top and v.
#[cycle(application)]
pub fn fold(
    f: &[u32; FORM_TABLE_SIZE],
    c: &mut [u32],
    w: &mut [u32; RING_SIZE],
    top: u32,
    g: u32,
    v: Val,
    m: Meter,
) -> Result<Reached, Stopped>
    ensures { Folded f.now c.old w.old top g v m result c.new w.new }
{
    let p = cells::free_cell(c, m);
    let k = m.charge_cells(2)?;
    let x = cells::held(w, top as usize);
    let y = cells::pair(c, p, x, v);
    apply(f, c, w, top, g, y, k)
}

// The form at g between the `many` values that wait from top on and v, from the right.
#[cycle(application)]
pub fn between(
    f: &[u32; FORM_TABLE_SIZE],
    c: &mut [u32],
    w: &mut [u32; RING_SIZE],
    top: u32,
    g: u32,
    many: u32,
    v: Val,
    m: Meter,
) -> Result<Reached, Stopped>
    ensures { Between f.now c.old w.old top g many v m result c.new w.new }
{
    let mut end = Reached { value: v, meter: m };
    for q in (0..many).rev() {
        let t = place(top, q);
        end = fold(f, c, w, t, g, end.value, end.meter)?;
    }
    Ok(end)
}

// The form at g between the places of v, from the right. All but the last wait.
#[cycle(application)]
pub fn insert(
    f: &[u32; FORM_TABLE_SIZE],
    c: &mut [u32],
    w: &mut [u32; RING_SIZE],
    top: u32,
    g: u32,
    v: Val,
    m: Meter,
) -> Result<Reached, Stopped>
    ensures { Inserted f.now c.old w.old top g v m result c.new w.new }
{
    if v.tag != language::SEQUENCE {
        return Err(Stopped {
            why: Stop::Bottom,
            meter: m,
        });
    }
    let many = cells::size(v);
    if many == 0 {
        return Err(Stopped {
            why: Stop::Bottom,
            meter: m,
        });
    }
    let y = spread(c, w, top, many - 1, v);
    between(f, c, w, top, g, many - 1, y, m)
}

// The question at h on v, and what its value says.
#[cycle(application)]
pub fn ask(
    f: &[u32; FORM_TABLE_SIZE],
    c: &mut [u32],
    w: &mut [u32; RING_SIZE],
    top: u32,
    h: u32,
    v: Val,
    m: Meter,
) -> Result<Asked, Stopped>
    ensures { Questioned f.now c.old w.old top h v m result c.new w.new }
{
    let end = apply(f, c, w, top, h, v, m)?;
    match truth_of(end.value) {
        Some(yes) => Ok(Asked {
            yes,
            meter: end.meter,
        }),
        None => Err(Stopped {
            why: Stop::Bottom,
            meter: end.meter,
        }),
    }
}

// A while: the form behind the question at h again, as long as the question says T.
#[cycle(application)]
pub fn repeat(
    f: &[u32; FORM_TABLE_SIZE],
    c: &mut [u32],
    w: &mut [u32; RING_SIZE],
    top: u32,
    h: u32,
    v: Val,
    m: Meter,
) -> Result<Reached, Stopped>
    ensures { Repeated f.now c.old w.old top h v m result c.new w.new }
{
    let g = next(f, h);
    let mut end = Reached { value: v, meter: m };
    loop {
        let said = ask(f, c, w, top, h, end.value, end.meter)?;
        if !said.yes {
            return Ok(Reached {
                value: end.value,
                meter: said.meter,
            });
        }
        end = apply(f, c, w, top, g, end.value, said.meter)?;
    }
}

// The form at g on the pair of the constant a and v.
#[cycle(application)]
pub fn bu(
    f: &[u32; FORM_TABLE_SIZE],
    c: &mut [u32],
    w: &mut [u32; RING_SIZE],
    top: u32,
    g: u32,
    a: Val,
    v: Val,
    m: Meter,
) -> Result<Reached, Stopped>
    ensures { Bound f.now c.old w.old top g a v m result c.new w.new }
{
    let p = cells::free_cell(c, m);
    let k = m.charge_cells(2)?;
    let y = cells::pair(c, p, a, v);
    apply(f, c, w, top, g, y, k)
}

// A condition: the question at h, then the first form behind it on T, the second on F.
#[cycle(application)]
pub fn condition(
    f: &[u32; FORM_TABLE_SIZE],
    c: &mut [u32],
    w: &mut [u32; RING_SIZE],
    top: u32,
    h: u32,
    v: Val,
    m: Meter,
) -> Result<Reached, Stopped>
    ensures { Chosen f.now c.old w.old top h v m result c.new w.new }
{
    let said = ask(f, c, w, top, h, v, m)?;
    let g = branch(f, h, u32::from(said.yes));
    apply(f, c, w, top, g, v, said.meter)
}

// The body of a name, whose record and one is d, with one more name open; 0 if it is undefined.
#[cycle(application)]
pub fn name(
    f: &[u32; FORM_TABLE_SIZE],
    c: &mut [u32],
    w: &mut [u32; RING_SIZE],
    top: u32,
    d: u32,
    v: Val,
    m: Meter,
) -> Result<Reached, Stopped>
    ensures { NameApplied f.now c.old w.old top d v m result c.new w.new }
{
    if d == 0 {
        return Err(Stopped {
            why: Stop::Bottom,
            meter: m,
        });
    }
    let k = m.open_name()?;
    let end = apply(f, c, w, top, d - 1, v, k)?;
    let back = end.meter.close_name();
    Ok(Reached {
        value: end.value,
        meter: back,
    })
}
