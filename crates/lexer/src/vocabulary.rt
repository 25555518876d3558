// The primitive words with their cell rules: searched by the reader, written from, consulted by the evaluator.
ghost use Rattle.std.specs.Prelude.{◌≡◌, map};
ghost use Rattle.language.specs.Words.{entry, ops};
ghost use Rattle.language.specs.Judging.{find_op};
ghost use Rattle.lexer.specs.Vocabulary.{op_of, op_code, rule_of, HasCode, spelled_at, row_says, all_rows, found};

// The primitive words of document 01 in the order of its table; the discriminants are the codes that a form table holds.
#[derive(Clone, Copy, Debug, PartialEq, Eq)]
pub enum Primitive {
    Id = 0,
    Tl = 1,
    Atom = 2,
    Null = 3,
    Eq = 4,
    Lt = 5,
    Length = 6,
    Add = 7,
    Sub = 8,
    Mul = 9,
    Div = 10,
    And = 11,
    Or = 12,
    Not = 13,
    Apndl = 14,
    Tlr = 15,
    Reverse = 16,
    Rotl = 17,
    Rotr = 18,
    Apndr = 19,
    Distl = 20,
    Distr = 21,
    Trans = 22,
}

// How many cells a word asks for, of n places: by the table, and for the last rule of n rows of m.
#[derive(Clone, Copy, Debug, PartialEq, Eq)]
pub enum CellRule {
    NoCell,
    // one cell
    One,
    // n - 1 cells
    OneLess,
    // n cells
    AsMany,
    // n + 1 cells
    OneMore,
    // 3n cells
    ThreeEach,
    // m + m * n cells
    Rows,
}

// A number that is no primitive word's code.
#[derive(Clone, Copy, Debug, PartialEq, Eq)]
pub struct NoPrimitive(pub u32);

// A row of the table: a word, its letters and its cell rule.
struct Row {
    word: Primitive,
    letters: &'static [u8],
    rule: CellRule,
}

// The table of the primitive words, each at its code.
const TABLE: [Row; 23] = [
    Row {
        word: Primitive::Id,
        letters: b"id",
        rule: CellRule::NoCell,
    },
    Row {
        word: Primitive::Tl,
        letters: b"tl",
        rule: CellRule::NoCell,
    },
    Row {
        word: Primitive::Atom,
        letters: b"atom",
        rule: CellRule::NoCell,
    },
    Row {
        word: Primitive::Null,
        letters: b"null",
        rule: CellRule::NoCell,
    },
    Row {
        word: Primitive::Eq,
        letters: b"eq",
        rule: CellRule::NoCell,
    },
    Row {
        word: Primitive::Lt,
        letters: b"lt",
        rule: CellRule::NoCell,
    },
    Row {
        word: Primitive::Length,
        letters: b"length",
        rule: CellRule::NoCell,
    },
    Row {
        word: Primitive::Add,
        letters: b"add",
        rule: CellRule::NoCell,
    },
    Row {
        word: Primitive::Sub,
        letters: b"sub",
        rule: CellRule::NoCell,
    },
    Row {
        word: Primitive::Mul,
        letters: b"mul",
        rule: CellRule::NoCell,
    },
    Row {
        word: Primitive::Div,
        letters: b"div",
        rule: CellRule::NoCell,
    },
    Row {
        word: Primitive::And,
        letters: b"and",
        rule: CellRule::NoCell,
    },
    Row {
        word: Primitive::Or,
        letters: b"or",
        rule: CellRule::NoCell,
    },
    Row {
        word: Primitive::Not,
        letters: b"not",
        rule: CellRule::NoCell,
    },
    Row {
        word: Primitive::Apndl,
        letters: b"apndl",
        rule: CellRule::One,
    },
    Row {
        word: Primitive::Tlr,
        letters: b"tlr",
        rule: CellRule::OneLess,
    },
    Row {
        word: Primitive::Reverse,
        letters: b"reverse",
        rule: CellRule::AsMany,
    },
    Row {
        word: Primitive::Rotl,
        letters: b"rotl",
        rule: CellRule::AsMany,
    },
    Row {
        word: Primitive::Rotr,
        letters: b"rotr",
        rule: CellRule::AsMany,
    },
    Row {
        word: Primitive::Apndr,
        letters: b"apndr",
        rule: CellRule::OneMore,
    },
    Row {
        word: Primitive::Distl,
        letters: b"distl",
        rule: CellRule::ThreeEach,
    },
    Row {
        word: Primitive::Distr,
        letters: b"distr",
        rule: CellRule::ThreeEach,
    },
    Row {
        word: Primitive::Trans,
        letters: b"trans",
        rule: CellRule::Rows,
    },
];

// The table, lent.
fn table() -> &'static [Row; 23]
    ensures { map row_says result.now ≡ all_rows }
{
    &TABLE
}

impl Primitive {
    // The word's letters.
    pub fn spelled(self) -> &'static [u8]
        ensures { result.now ≡ (entry (op_of self)).spelled }
    {
        table()[self as usize].letters
    }

    // How many cells the word asks for.
    pub fn rule(self) -> CellRule
        ensures { result ≡ rule_of (entry (op_of self)).rule }
    {
        table()[self as usize].rule
    }
}

impl From<Primitive> for u32 {
    ghost from_gives = { λ p n. n ≡ op_code (op_of p) };

    fn from(p: Primitive) -> u32 {
        p as u32
    }
}

impl TryFrom<u32> for Primitive {
    type Error = NoPrimitive;

    ghost try_from_gives = { HasCode };

    fn try_from(code: u32) -> Result<Primitive, NoPrimitive> {
        let rows = table();
        rows.get(code as usize)
            .map(|row| row.word)
            .ok_or(NoPrimitive(code))
    }
}

// The letters of the word with this code; none past the table.
pub fn spelling(code: u32) -> &'static [u8]
    ensures { result.now ≡ spelled_at code }
{
    match Primitive::try_from(code) {
        Ok(p) => p.spelled(),
        Err(_) => b"",
    }
}

// The primitive word that is spelled so, if there is one.
pub fn find_word(word: &[u8]) -> Option<Primitive>
    ensures { result ≡ found (find_op ops word.now) }
{
    let rows = table();
    rows.iter()
        .find(|row| row.letters == word)
        .map(|row| row.word)
}
