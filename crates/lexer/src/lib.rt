// The word reader: where the next word, number or mark of a text stands, and what it is where an object, a part or a
// defined name may stand.
#![tactic(auto)]

mod classes;
mod judging;
mod numbers;
mod reader;
mod vocabulary;

pub use classes::{
    byte_at, is_blank, is_digit, is_letter, is_lower, is_name_byte, is_symbol_byte, is_upper,
    is_word_byte,
};
pub use judging::{judge_atom, judge_name, judge_part, refusal};
pub use numbers::value;
pub use reader::{next_word, size_at, skip_blanks};
pub use vocabulary::{CellRule, NoPrimitive, Primitive, find_word, spelling};

// A class of bytes. A class and not a closure: contracts name its test, which each caller would have to hand over as a ghost value.
#[derive(Clone, Copy, Debug, PartialEq, Eq)]
pub enum Class {
    Blank,
    Digit,
    // letters and digits
    Word,
    // upper-case letters and digits
    Symbol,
    // lower-case letters and digits
    Name,
}

// What stands where a part may stand: a selector, a primitive word, or a name (packed).
#[derive(Clone, Copy, Debug, PartialEq, Eq)]
pub enum Part {
    Select(u32),
    SelectRight(u32),
    Primitive(Primitive),
    Name(u64),
}
