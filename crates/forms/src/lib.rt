// Forms in texts: read into the form table, their constants into cells; and the marks between them.
#![tactic(auto)]

mod marks;
mod plain;
mod reader;

pub use marks::read_mark;
pub use reader::read_form;

// Where reading goes on, and how many forms and cells there are then.
#[derive(Clone, Copy, Debug, PartialEq, Eq)]
pub struct Upto {
    pub next: usize,
    pub forms: usize,
    pub cells: u32,
}

// What follows a form of `[ ]`, with the place behind it: a comma and so another form, or the `]`.
#[derive(Clone, Copy, Debug, PartialEq, Eq)]
pub enum CommaRead {
    More(usize),
    Closed(usize),
}

// What follows the first form in `( )`, with the place behind it: the `)`, the `?` of a loop, the `->` of a condition.
#[derive(Clone, Copy, Debug, PartialEq, Eq)]
pub enum TestRead {
    Closed(usize),
    While(usize),
    Condition(usize),
}

// Forms were read one behind the other, so many of them.
#[derive(Clone, Copy, Debug, PartialEq, Eq)]
pub struct FormsRead {
    pub upto: Upto,
    pub count: u32,
}
