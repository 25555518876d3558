// The kinds of records in a form table.
ghost use Rattle.std.specs.Prelude.{◌≡◌};
ghost use Rattle.formtable.specs.Kinds.{number_of_kind};

// The kind of a record; the discriminants are the numbers that a form table holds.
#[derive(Clone, Copy, Debug, PartialEq, Eq)]
pub enum Kind {
    // A primitive word.
    Word = 1,
    // A selector.
    Select = 2,
    // A selector from the right.
    SelectRight = 3,
    // A name.
    Name = 4,
    // A chain.
    Chain = 5,
    // `[f,g,..]`.
    Construct = 6,
    // `/f`.
    Insert = 7,
    // `@f`.
    ApplyAll = 8,
    // `(p->f;g)`.
    Condition = 9,
    // `(p?f)`.
    While = 10,
    // `%x`: the tag of x is added to the number.
    Constant = 12,
    // `{f,x}`: the tag of x is added to the number.
    Bu = 16,
}

impl From<Kind> for u32 {
    ghost from_gives = { λ kind n. n ≡ number_of_kind kind };

    fn from(kind: Kind) -> u32 {
        kind as u32
    }
}
