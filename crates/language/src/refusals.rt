// Why a text is refused, and where.
ghost use Rattle.std.specs.Prelude.{◌≡◌};
ghost use Rattle.language.specs.Refusals.{number_of};

// Why a text is refused; the discriminants are the numbers of the answer table.
#[derive(Clone, Copy, Debug, PartialEq, Eq)]
pub enum Refusal {
    // Program text too long.
    LongProgram = 1,
    // Object text too long.
    LongObject = 2,
    // Steps over the limit.
    StepsOver = 3,
    // Open names over the limit.
    NamesOver = 4,
    // Cells over the limit, or a table of another length.
    CellsOver = 5,
    // Not in the grammar.
    NotInGrammar = 6,
    // A 33rd mark would open.
    OpenMarks = 7,
    // Number with leading zero, `-0`, or out of range, selectors included.
    BadNumber = 8,
    // Word over 12 characters.
    LongWord = 9,
    // Too many forms or definitions.
    TooMany = 10,
    // A name defined twice.
    NameTwice = 11,
    // Constants and object need more than the budgeted cells.
    FewCells = 13,
}

impl From<Refusal> for u32 {
    ghost from_gives = { λ r n. n ≡ number_of r };

    fn from(r: Refusal) -> u32 {
        r as u32
    }
}

// A refused text: why, and the place where it is refused.
#[derive(Clone, Copy, Debug, PartialEq, Eq)]
pub struct RefusedText {
    pub refusal: Refusal,
    pub place: usize,
}
