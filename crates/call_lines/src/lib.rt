// What stands around a run: the three lines of a call, the budgets in the first, and the line of six numbers.
#![tactic(auto)]

mod cutting;
mod numerals;
mod printing;

pub use cutting::cut_lines;
pub use numerals::read_budgets;
pub use printing::{print_answer, print_numbers, print_other};

// The three lines of a call, without their line feeds.
#[derive(Clone, Copy, Debug, PartialEq, Eq)]
pub struct Lines<'a> {
    pub budgets: &'a [u8],
    pub program: &'a [u8],
    pub object: &'a [u8],
}
