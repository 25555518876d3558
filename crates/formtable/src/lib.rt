// How a program lies in the form table, and its definitions in a table beside it, is said in specs/; the readers, the writer
// and the link pass cite it.
#![tactic(auto)]

ghost use Rattle.std.specs.Prelude.{◌≡◌};
ghost use Rattle.formtable.specs.Encoding.{named};

mod kinds;

pub use kinds::Kind;

// The numbers of the kinds, for matches on numbers. A primitive word.
pub const WORD: u32 = Kind::Word as u32;

// A selector.
pub const SELECT: u32 = Kind::Select as u32;

// A selector from the right.
pub const SELECT_RIGHT: u32 = Kind::SelectRight as u32;

// A name.
pub const NAME: u32 = Kind::Name as u32;

// A chain.
pub const CHAIN: u32 = Kind::Chain as u32;

// `[f,g,..]`.
pub const CONSTRUCT: u32 = Kind::Construct as u32;

// `/f`.
pub const INSERT: u32 = Kind::Insert as u32;

// `@f`.
pub const APPLY_ALL: u32 = Kind::ApplyAll as u32;

// `(p->f;g)`.
pub const CONDITION: u32 = Kind::Condition as u32;

// `(p?f)`.
pub const WHILE: u32 = Kind::While as u32;

// `%x`: the tag of x is added.
pub const CONSTANT: u32 = Kind::Constant as u32;

// `%x` where x is a sequence.
pub const LAST_CONSTANT: u32 = 15;

// `{f,x}`: the tag of x is added.
pub const BU: u32 = Kind::Bu as u32;

// No kind is as large.
pub const KINDS_END: u32 = 20;

// The numbers of a table of 128 definitions, four to each.
pub const DEFINITION_TABLE_SIZE: usize = 512;

// Whether definition d has the name [lo, hi].
#[tactic(auto, unfolding(crate::specs::Encoding::named))]
pub fn has_name(definitions: &[u32], d: u32, lo: u32, hi: u32) -> bool
    ensures { result ≡ named definitions.now d lo hi }
{
    let i = d as usize * 4;
    tables::at(definitions, i) == lo && tables::at(definitions, i + 1) == hi
}
