// The records that definitions and code share. Their fields are read by the definitions in specs/.
#![tactic(auto)]

ghost use Rattle.std.specs.Prelude.{◌<◌, ◌≡◌};
ghost use Rattle.language.specs.Charging.{step_charge, cells_charge, name_charge, name_given};

mod refusals;
mod stops;
mod texts;

pub use refusals::{Refusal, RefusedText};
pub use stops::{Stop, Stopped};
pub use texts::Text;

// The limits of document 01, named as in specs/Numbers. The most bytes of a program's text.
pub const PROGRAM_LIMIT: usize = 8192;

// The most bytes of an object's text.
pub const OBJECT_LIMIT: usize = 16384;

// The most forms of a program.
pub const FORM_LIMIT: usize = 2048;

// The most definitions of a program.
pub const DEFINITION_LIMIT: usize = 128;

// The most marks open at once.
pub const MARK_LIMIT: u32 = 32;

// The most steps of a budget.
pub const STEP_LIMIT: u32 = 1000000;

// The most open names of a budget.
pub const NAME_LIMIT: u32 = 256;

// The most cells of a budget.
pub const CELL_LIMIT: u32 = 4096;

// The numbers of a form table.
pub const FORM_TABLE_SIZE: usize = 8192;

// The numbers of the largest cell table: four to each cell.
pub const CELL_TABLE_SIZE: usize = 16384;

// The most bytes of a written text.
pub const WRITTEN_LIMIT: usize = 16384;

// The most characters of a word.
pub const WORD_LIMIT: usize = 12;

// The largest selector.
pub const SELECTOR_LIMIT: u64 = 255;

// There are the integers n and -(n + 1) for each n below this.
pub const HALF: u64 = 2147483648;

// The largest integer.
pub const LARGEST: u64 = 2147483647;

// What is left of each budget of a run.
#[derive(Clone, Copy, Debug, PartialEq, Eq)]
pub struct Meter {
    pub steps: u32,
    pub names: u32,
    pub cells: u32,
}

impl Meter {
    // Asks for one step; where none is left the meter comes back as it was.
    pub fn charge_step(mut self) -> Result<Meter, Stopped>
        ensures { result ≡ step_charge self }
    {
        let steps = self.steps;
        if steps == 0 {
            return Err(Stopped {
                why: Stop::StepsSpent,
                meter: self,
            });
        }
        self.steps = steps - 1;
        Ok(self)
    }

    // Asks for n cells at once; where fewer are left the meter comes back as it was.
    pub fn charge_cells(mut self, n: u32) -> Result<Meter, Stopped>
        ensures { result ≡ cells_charge n self }
    {
        let cells = self.cells;
        if cells < n {
            return Err(Stopped {
                why: Stop::CellsSpent,
                meter: self,
            });
        }
        self.cells = cells - n;
        Ok(self)
    }

    // Asks for one more open name; where none may open the meter comes back as it was.
    pub fn open_name(mut self) -> Result<Meter, Stopped>
        ensures { result ≡ name_charge self }
    {
        let names = self.names;
        if names == 0 {
            return Err(Stopped {
                why: Stop::NamesSpent,
                meter: self,
            });
        }
        self.names = names - 1;
        Ok(self)
    }

    // One more name may open again.
    pub fn close_name(mut self) -> Meter
        requires { self.names < 4294967295 }
        ensures { result ≡ name_given self }
    {
        let names = self.names;
        self.names = names + 1;
        self
    }
}

// An answer's six numbers, in the order of the answer table.
#[derive(Clone, Copy, Debug, PartialEq, Eq)]
pub struct Answer {
    pub number: u32,
    pub place: u32,
    pub text: u32,
    pub steps: u32,
    pub cells: u32,
    pub length: u32,
}

// The number of an answer whose text was written.
pub const DONE: u32 = 20;

// An object as code holds it. The tag says what the word is: 0 an integer from 0 up, 1 a negative integer (the word is
// one less than its size), 2 a symbol packed into a number, 3 a sequence (0 for the empty one, else its first cell and one, and its length times 2^32).
#[derive(Clone, Copy, Debug, PartialEq, Eq)]
pub struct Val {
    pub tag: u32,
    pub word: u64,
}

// The tag of an integer from 0 on.
pub const POSITIVE: u32 = 0;

// The tag of an integer below 0.
pub const NEGATIVE: u32 = 1;

// The tag of a symbol.
pub const SYMBOL: u32 = 2;

// The tag of a sequence.
pub const SEQUENCE: u32 = 3;

// How many tags there are.
pub const TAGS: u32 = 4;

// A word, number or mark of a text: its first byte and how many bytes it has.
#[derive(Clone, Copy, Debug, PartialEq, Eq)]
pub struct Token {
    pub place: usize,
    pub length: usize,
}
