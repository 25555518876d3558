// Programs as text: written from the form table, the constants from cells, the names from the table of definitions.
#![tactic(auto)]

mod definitions;
mod forms;
mod marks;
mod texts;

pub use definitions::{measure_program, write_program};

// An output, and the place that a walk over a text has come to. Behind its end nothing is written: so the same walk
// measures, and then writes. A place past 16,384 only says that the text is longer.
#[derive(Drop)]
struct Writer<'a> {
    out: &'a mut [u8],
    at: usize,
}

// The record behind a form, and the most marks open at once in its text, 33 if more than 32.
#[derive(Clone, Copy, Debug, PartialEq, Eq)]
pub struct Depth {
    pub next: u32,
    pub marks: u32,
}

// A program's text: its length, 16,385 if longer than 16,384; and the most marks open at once in it, 33 if more than 32.
#[derive(Clone, Copy, Debug, PartialEq, Eq)]
pub struct Measured {
    pub length: usize,
    pub marks: u32,
}
