// Programs in texts: read into the form table and the cells, with a table of the definitions.
#![tactic(auto)]

mod definitions;

pub use definitions::read_program;

// What was read: how many definitions there are, how many forms they have, and how many cells their constants take.
#[derive(Clone, Copy, Debug, PartialEq, Eq)]
pub struct ProgramRead {
    pub definitions: usize,
    pub forms: usize,
    pub cells: u32,
}
