// The words of document 01's table on cells. A word gives bottom before it asks for cells, and asks for all of them at once.
#![tactic(auto)]

ghost use Rattle.lexer.specs.Vocabulary.{op_code, op_of};
ghost use Rattle.primitives.specs.Leaves.{Coded, CodedPair, CodedTwo};

use language::{Meter, Stopped, Val};
use lexer::Primitive;

mod appending;
mod asking;
mod numbers;
mod places;
mod selectors;
mod shapes;
mod transposing;
mod truths;

pub use selectors::{select, select_right};
pub use shapes::truth_of;

// What an application gives: a value, and what is left of the budgets.
#[derive(Clone, Copy, Debug, PartialEq, Eq)]
pub struct Reached {
    pub value: Val,
    pub meter: Meter,
}

// Cells that were asked for: the first one's number, and the meter without them.
#[derive(Clone, Copy, Debug, PartialEq, Eq)]
pub struct Reserved {
    pub first: u32,
    pub meter: Meter,
}

// The word with this code on the value v; bottom past the table.
pub fn apply_word(code: u32, c: &mut [u32], v: Val, m: Meter) -> Result<Reached, Stopped>
    ensures { Coded c.old v m code result c.new }
{
    match Primitive::try_from(code) {
        Ok(word) => apply(word, c, v, m),
        Err(_) => Err(Stopped::bottom(m)),
    }
}

// A word on the value v.
fn apply(word: Primitive, c: &mut [u32], v: Val, m: Meter) -> Result<Reached, Stopped>
    ensures { Coded c.old v m (op_code (op_of word)) result c.new }
{
    match word {
        Primitive::Id => Ok(Reached { value: v, meter: m }),
        Primitive::Tl => places::tl(c, v, m),
        Primitive::Atom => truths::atom(v, m),
        Primitive::Null => truths::null(v, m),
        Primitive::Length => places::length(v, m),
        Primitive::Not => truths::not(v, m),
        Primitive::Tlr => places::tlr(c, v, m),
        Primitive::Reverse => places::arrange(Primitive::Reverse, c, v, m),
        Primitive::Rotl => places::arrange(Primitive::Rotl, c, v, m),
        Primitive::Rotr => places::arrange(Primitive::Rotr, c, v, m),
        Primitive::Trans => transposing::trans(c, v, m),
        _ => apply_to_pair(word, c, v, m),
    }
}

// A word that asks for a pair.
fn apply_to_pair(word: Primitive, c: &mut [u32], v: Val, m: Meter) -> Result<Reached, Stopped>
    ensures { CodedPair c.old v m (op_code (op_of word)) result c.new }
{
    match shapes::two(c, v) {
        None => Err(Stopped::bottom(m)),
        Some((a, b)) => apply_to_two(word, c, a, b, m),
    }
}

// A word on the pair of a and b.
fn apply_to_two(
    word: Primitive,
    c: &mut [u32],
    a: Val,
    b: Val,
    m: Meter,
) -> Result<Reached, Stopped>
    ensures { CodedTwo c.old a b m (op_code (op_of word)) result c.new }
{
    match word {
        Primitive::Eq => truths::eq(c, a, b, m),
        Primitive::Lt => numbers::lt(a, b, m),
        Primitive::Add => numbers::add(a, b, m),
        Primitive::Sub => numbers::sub(a, b, m),
        Primitive::Mul => numbers::mul(a, b, m),
        Primitive::Div => numbers::div(a, b, m),
        Primitive::And => truths::and(a, b, m),
        Primitive::Or => truths::or(a, b, m),
        Primitive::Apndl => appending::apndl(c, a, b, m),
        Primitive::Apndr => appending::apndr(c, a, b, m),
        Primitive::Distl => appending::distl(c, a, b, m),
        Primitive::Distr => appending::distr(c, a, b, m),
        _ => Err(Stopped::bottom(m)),
    }
}
