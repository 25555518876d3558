// The worst nesting of forms that a run can have: 256 names open, each body with 32 marks, and at each mark a form with a chain
// in it. Each such run must end because the names are spent, within the stack that a program has. What is printed of a run shows
// how deep it was: how it ended, the steps that it took, the names open at the end, and the cells that it made.
#![tactic(auto)]

use bodies::Level;
use formtable::Kind;
use language::{CELL_TABLE_SIZE, FORM_TABLE_SIZE, Meter, Val};
use lexer::Primitive;
use std::io;

mod bodies;
mod objects;

// The most steps and cells that a run may have, and so many open names.
fn budgets(names: u32) -> Meter {
    Meter {
        steps: language::STEP_LIMIT,
        names,
        cells: language::CELL_LIMIT,
    }
}

// Evaluates the name whose body stands in f, and prints the kinds of its first five forms and how that ended.
fn run(
    rt: &impl Print,
    f: &[u32; FORM_TABLE_SIZE],
    c: &mut [u32; CELL_TABLE_SIZE],
    v: Val,
    m: Meter,
) -> io::Result<()> {
    for i in 0..5 {
        print!(rt; "{} ", tables::at(f, 4 * i) % linker::KINDS)?;
    }
    match evaluator::run::evaluate(f, c, 1, v, m) {
        Ok(end) => report(rt, language::DONE, m, end.meter),
        Err(end) => report(rt, end.why.into(), m, end.meter),
    }
}

// Prints the answer table's number of an end, and what was taken of the budgets m where k is left: steps, names still open,
// cells.
fn report(rt: &impl Print, n: u32, m: Meter, k: Meter) -> io::Result<()> {
    let steps = m.steps.wrapping_sub(k.steps);
    let names = m.names.wrapping_sub(k.names);
    let cells = m.cells.wrapping_sub(k.cells);
    println!(rt; "ends with {n}: {steps} steps, {names} names open, {cells} cells")
}

// Levels of one form, on an integer.
fn run_levels(rt: &impl Print, level: Level, m: Meter) -> io::Result<()> {
    let f = bodies::body(level);
    let mut c = [0; CELL_TABLE_SIZE];
    let five = Val {
        tag: language::POSITIVE,
        word: 5,
    };
    run(rt, &f, &mut c, five, m)
}

// Constructions, and within them eq on a pair of one deep object. Its cells are the first 3,502.
fn run_equality(rt: &impl Print) -> io::Result<()> {
    let f = bodies::equality_body();
    let mut c = objects::deep_pair();
    let m = Meter {
        cells: 594,
        ..budgets(256)
    };
    run(rt, &f, &mut c, cells::sequence(3501, 2), m)
}

// A construction; a condition's question, its first form, its second; a while's question, its form; eq: each until the names
// are spent. atom says T of an integer, null says F.
fn run_deepest(rt: &impl Print) -> io::Result<()> {
    let levels = [
        Level::new(Kind::Construct, 0, Primitive::Id),
        Level::new(Kind::Condition, 0, Primitive::Id),
        Level::new(Kind::Condition, 1, Primitive::Atom),
        Level::new(Kind::Condition, 2, Primitive::Null),
        Level::new(Kind::While, 0, Primitive::Id),
        Level::new(Kind::While, 1, Primitive::Atom),
    ];
    for level in levels {
        run_levels(rt, level, budgets(256))?;
    }
    run_equality(rt)
}

// Ends of every other kind: one step less than the first run takes; `{f,0}` at every mark, until the cells are spent; a
// question that gives bottom; a while that ends at once.
fn run_others(rt: &impl Print) -> io::Result<()> {
    let short = Meter {
        steps: 16896,
        ..budgets(256)
    };
    run_levels(rt, Level::new(Kind::Construct, 0, Primitive::Id), short)?;
    run_levels(rt, Level::new(Kind::Bu, 0, Primitive::Id), budgets(256))?;
    run_levels(
        rt,
        Level::new(Kind::Condition, 1, Primitive::Length),
        budgets(256),
    )?;
    run_levels(
        rt,
        Level::new(Kind::While, 1, Primitive::Null),
        budgets(256),
    )
}

// Fewer names, down to none: so many fewer steps.
fn run_shallower(rt: &impl Print) -> io::Result<()> {
    for names in [255, 1, 0] {
        run_levels(
            rt,
            Level::new(Kind::Construct, 0, Primitive::Id),
            budgets(names),
        )?;
    }
    Ok(())
}

fn main(rt: HostRuntime) -> io::Result<()> {
    run_deepest(&rt)?;
    run_others(&rt)?;
    run_shallower(&rt)
}
